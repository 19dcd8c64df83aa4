// The correction: x and P from observed points and a measurement, by weighted averages through the kinds or, in `flat`, by flat ones without kinds; and the steps that both share.
#![tactic(auto)]

ghost use Rattle.std.specs.Prelude.{◌≡◌, ◌≤◌, List, Result, take, true};
ghost use Rattle.floats.specs.declared.Refusal.{Refusal};
ghost use Rattle.floats.specs.declared.Refusal.TheVariants.{Range};
ghost use Rattle.floats.specs.Refusal.{accepted, unless};
ghost use Rattle.floats.specs.Numbers.{all_finite};
ghost use Rattle.angles.specs.declared.Kind.{Kind};
ghost use Rattle.matrix.specs.Results.{run};
ghost use Rattle.sigma.specs.declared.Moments.{Moments};
ghost use Rattle.correction.specs.Leaves.{innovation_of, shifted_of, widened};
ghost use Rattle.correction.specs.Correct.{apply_plan, given, correct_of};

use angles::Kind;
use floats::{Number, Refusal};
use matrix::pivots::Pivots;
use matrix::{factor, inverse, layout, product, sums};
use root::Rooted;
use sigma::{Moments, mean, spread};

pub mod flat;

// y = z − z mean, through the measurement kinds.
fn innovation<T: Number>(m: usize, z: &[T; 8], mean: &[T; 8], kinds: &[Kind<T>; 8]) -> [T; 8]
    requires { m ≤ 8 }
    ensures { T.floats result ≡ innovation_of T.format m (T.floats z.now) (T.floats mean.now) (T.seen (λ A. List (Kind A)) kinds.now) }
{
    let mut y = [T::ZERO; 8];
    for j in 0..m {
        y[j] = kinds[j].through(z[j] - mean[j]);
    }
    y
}

// x[i] + sum of K[i][j]·y[j].
fn shifted<T: Number>(n: usize, m: usize, x: &[T; 8], k: &[T; 64], y: &[T; 8]) -> [T; 8]
    requires { (n ≤ 8) × (m ≤ 8) }
    ensures { T.floats result ≡ shifted_of T.format n m (T.floats x.now) (T.floats k.now) (T.floats y.now) }
{
    let mut out = [T::ZERO; 8];
    for i in 0..n {
        let r = layout::row(i, m);
        let mut s = T::ZERO;
        for j in 0..m {
            s = s + k[r + j] * y[j];
        }
        out[i] = x[i] + s;
    }
    out
}

// The four measurement kinds in eight places; plain past them.
fn widened<T: Number>(kinds: [Kind<T>; 4]) -> [Kind<T>; 8]
    ensures { T.seen (λ A. List (Kind A)) result ≡ widened (T.seen (λ A. List (Kind A)) kinds) }
{
    let [a, b, c, d] = kinds;
    [
        a,
        b,
        c,
        d,
        Kind::Plain,
        Kind::Plain,
        Kind::Plain,
        Kind::Plain,
    ]
}

// A listed result of the steps: its first k numbers have to be finite.
fn listed<T: Number>(v: &[T], k: usize) -> Result<(), Refusal>
    ensures { result ≡ unless (all_finite (take k (T.floats v.now))) Range (accepted tt) }
{
    if floats::all_finite(v, k) {
        Ok(())
    } else {
        Err(Refusal::Range)
    }
}

// The steps that both share (the Rust's `compute_kalman_gain` and `apply_correction`), from z mean, S, x mean and the cross covariance C, as a close has made them, on: the factor of S, its inverse V, the gain K = C·Vᵀ, y, x and P. Each listed result is checked in running order, those four first.
fn apply_correction<T: Rooted>(
    n: usize,
    m: usize,
    x: &[T; 8],
    p: &[T; 64],
    z: &[T; 8],
    measured: &[Kind<T>; 8],
    zm: &[T; 8],
    s: &[T; 64],
    xm: &[T; 8],
    c: &[T; 64],
) -> Result<Moments<T>, Refusal>
    requires { (n ≤ 8) × (m ≤ 4) }
    ensures { T.seen (λ A. Result (Moments A) Refusal) result ≡ run (apply_plan T.format (record { n = n; m = m; x = T.floats x.now; p = T.floats p.now; z = T.floats z.now; measured = T.seen (λ A. List (Kind A)) measured.now; zm = T.floats zm.now; s = T.floats s.now; xm = T.floats xm.now; c = T.floats c.now })) }
{
    listed(zm, m)?;
    listed(s, m * m)?;
    listed(xm, n)?;
    listed(c, n * m)?;
    let l = factor::cholesky_decompose_lower(s, m, Pivots::OfS)?;
    let v = inverse::invert_l_cholesky(&l, m);
    listed(&v, m * m)?;
    let k = product::mult_transb(c, n, &v, m, m);
    listed(&k, n * m)?;
    let y = innovation(m, z, zm, measured);
    listed(&y, m)?;
    let x = shifted(n, m, x, &k, &y);
    listed(&x, n)?;
    let ck = product::mult_transb(c, n, &k, n, m);
    let p = sums::minus(n * n, p, &ck);
    listed(&p, n * n)?;
    Ok(Moments { x, p })
}

// The correction of n states by m measurements: anchored means and weighted spreads, through the kinds.
pub fn correct_with_weights_residuals<T: Rooted>(
    n: usize,
    m: usize,
    x: &[T; 8],
    p: &[T; 64],
    points: &[T; 136],
    observed: &[T; 136],
    w0m: T,
    w: &[T; 17],
    z: &[T; 8],
    r: &[T; 64],
    kinds: &[Kind<T>; 8],
    measured: [Kind<T>; 4],
) -> Result<Moments<T>, Refusal>
    requires { (n ≤ 8) × (m ≤ 4) }
    ensures { T.seen (λ A. Result (Moments A) Refusal) result ≡ correct_of T.format (given n m (T.floats x.now) (T.floats p.now) (T.floats points.now) (T.floats observed.now) (T.float w0m) (T.floats w.now) (T.floats z.now) (T.floats r.now) (T.seen (λ A. List (Kind A)) kinds.now) (widened (T.seen (λ A. List (Kind A)) measured))) }
{
    let t = n + n;
    let wide = widened(measured);
    let zm = mean::anchored_mean(observed, m, t, w0m, w, &wide);
    let dz = spread::deviations(observed, m, t, &zm, &wide);
    let sz = spread::spread(&dz, m, &dz, m, w, t);
    let xm = mean::anchored_mean(points, n, t, w0m, w, kinds);
    let dx = spread::deviations(points, n, t, &xm, kinds);
    let s = sums::plus(m * m, r, &sz);
    let c = spread::spread(&dx, n, &dz, m, w, t);
    apply_correction(n, m, x, p, z, &wide, &zm, &s, &xm, &c)
}
