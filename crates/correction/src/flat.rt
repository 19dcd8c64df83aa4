// The flat-average correction, after the crate's `correct_nonlinear`: means, S and the cross covariance are plain sums over all points, each divided by their number, with no kinds and no weights.
ghost use Rattle.std.specs.Prelude.{◌≡◌, ◌+◌, ◌<◌, ◌≤◌, Result};
ghost use Rattle.floats.specs.declared.Refusal.{Refusal};
ghost use Rattle.sigma.specs.declared.Moments.{Moments};
ghost use Rattle.sigma.specs.Weights.{whole};
ghost use Rattle.correction.specs.Flat.{flat_mean_at, flat_mean_of, flat_spread_at, flat_spread_of, flat_of};

use angles::Kind;
use floats::{Number, Refusal};
use matrix::{layout, sums};
use root::Rooted;
use sigma::{Moments, spread};

// The number of points, 0 to t.
fn count<T: Number>(t: usize) -> T
    requires { t < 17 }
    ensures { T.float result ≡ whole T.format (t + 1) }
{
    T::whole(t + 1)
}

// From +0, the points' numbers i; the sum over their count.
fn mean_at<T: Number>(p: &[T; 136], d: usize, t: usize, i: usize) -> T
    requires { (t < 17) × (d ≤ 8) × (i < d) }
    ensures { T.float result ≡ flat_mean_at T.format (T.floats p.now) d t i }
{
    let mut s = T::ZERO;
    for k in 0..t + 1 {
        s = s + p[sigma::place(k, d, i)];
    }
    s / count(t)
}

fn flat_mean<T: Number>(p: &[T; 136], d: usize, t: usize) -> [T; 8]
    requires { (t < 17) × (d ≤ 8) }
    ensures { T.floats result ≡ flat_mean_of T.format (T.floats p.now) d t }
{
    let mut mean = [T::ZERO; 8];
    for i in 0..d {
        mean[i] = mean_at(p, d, t, i);
    }
    mean
}

// From +0, for each point, a's number i times b's number j; the sum over their count.
fn spread_at<T: Number>(
    a: &[T; 136],
    da: usize,
    i: usize,
    b: &[T; 136],
    db: usize,
    j: usize,
    t: usize,
) -> T
    requires { (t < 17) × ((da ≤ 8) × (i < da)) × ((db ≤ 8) × (j < db)) }
    ensures { T.float result ≡ flat_spread_at T.format (T.floats a.now) da (T.floats b.now) db t i j }
{
    let mut s = T::ZERO;
    for k in 0..t + 1 {
        let x = sigma::place(k, da, i);
        let y = sigma::place(k, db, j);
        s = s + a[x] * b[y];
    }
    s / count(t)
}

// One such for each i and j, nothing mirrored: da rows of db.
fn flat_spread<T: Number>(a: &[T; 136], da: usize, b: &[T; 136], db: usize, t: usize) -> [T; 64]
    requires { (t < 17) × ((da ≤ 8) × (db ≤ 8)) }
    ensures { T.floats result ≡ flat_spread_of T.format (T.floats a.now) da (T.floats b.now) db t }
{
    let mut out = [T::ZERO; 64];
    for i in 0..da {
        for j in 0..db {
            out[layout::cell(i, db, j)] = spread_at(a, da, i, b, db, j, t);
        }
    }
    out
}

// The correction of n states by m measurements: flat means and flat spreads of plain differences.
pub fn correct_nonlinear<T: Rooted>(
    n: usize,
    m: usize,
    x: &[T; 8],
    p: &[T; 64],
    points: &[T; 136],
    observed: &[T; 136],
    z: &[T; 8],
    r: &[T; 64],
) -> Result<Moments<T>, Refusal>
    requires { (n ≤ 8) × (m ≤ 4) }
    ensures { T.seen (λ A. Result (Moments A) Refusal) result ≡ flat_of T.format n m (T.floats x.now) (T.floats p.now) (T.floats points.now) (T.floats observed.now) (T.floats z.now) (T.floats r.now) }
{
    let t = n + n;
    let kinds = [Kind::Plain; 8];
    let zm = flat_mean(observed, m, t);
    let dz = spread::deviations(observed, m, t, &zm, &kinds);
    let sz = flat_spread(&dz, m, &dz, m, t);
    let xm = flat_mean(points, n, t);
    let dx = spread::deviations(points, n, t, &xm, &kinds);
    let s = sums::plus(m * m, r, &sz);
    let c = flat_spread(&dx, n, &dz, m, t);
    crate::apply_correction(n, m, x, p, z, &kinds, &zm, &s, &xm, &c)
}
