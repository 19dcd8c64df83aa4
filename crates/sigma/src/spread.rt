// Deviations from a mean, and the weighted sums of their products over the points 0 to t: P, S and the cross covariance.
ghost use Rattle.std.specs.Prelude.{◌≡◌, ◌<◌, ◌≤◌, List};
ghost use Rattle.angles.specs.declared.Kind.{Kind};
ghost use Rattle.sigma.specs.Spread.{deviations_of, spread_at, spread_of};

use crate::place;
use angles::Kind;
use floats::Number;
use matrix::layout;

// Every point minus the mean, through the kinds.
pub fn deviations<T: Number>(
    p: &[T; 136],
    d: usize,
    t: usize,
    mean: &[T; 8],
    kinds: &[Kind<T>; 8],
) -> [T; 136]
    requires { (t < 17) × (d ≤ 8) }
    ensures { T.floats result ≡ deviations_of T.format (T.floats p.now) d t (T.floats mean.now) (T.seen (λ A. List (Kind A)) kinds.now) }
{
    let mut out = [T::ZERO; 136];
    for k in 0..t + 1 {
        for i in 0..d {
            let at = place(k, d, i);
            out[at] = kinds[i].through(p[at] - mean[i]);
        }
    }
    out
}

// From +0, for each point, weight times a's number i times b's number j.
fn sum_at<T: Number>(
    a: &[T; 136],
    da: usize,
    i: usize,
    b: &[T; 136],
    db: usize,
    j: usize,
    w: &[T; 17],
    t: usize,
) -> T
    requires { (t < 17) × ((da ≤ 8) × (i < da)) × ((db ≤ 8) × (j < db)) }
    ensures { T.float result ≡ spread_at T.format (T.floats a.now) da (T.floats b.now) db (T.floats w.now) t i j }
{
    let mut s = T::ZERO;
    for k in 0..t + 1 {
        let x = place(k, da, i);
        let y = place(k, db, j);
        s = s + w[k] * a[x] * b[y];
    }
    s
}

// One such sum for each i and j, nothing mirrored: da rows of db.
pub fn spread<T: Number>(
    a: &[T; 136],
    da: usize,
    b: &[T; 136],
    db: usize,
    w: &[T; 17],
    t: usize,
) -> [T; 64]
    requires { (t < 17) × ((da ≤ 8) × (db ≤ 8)) }
    ensures { T.floats result ≡ spread_of T.format (T.floats a.now) da (T.floats b.now) db (T.floats w.now) t }
{
    let mut out = [T::ZERO; 64];
    for i in 0..da {
        for j in 0..db {
            out[layout::cell(i, db, j)] = sum_at(a, da, i, b, db, j, w, t);
        }
    }
    out
}
