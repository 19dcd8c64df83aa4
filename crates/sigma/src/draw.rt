// The draw of 2n+1 points from x and P.
ghost use Rattle.std.specs.Prelude.{◌≡◌, ◌+◌, ◌<◌, ◌≤◌, Result, List};
ghost use Rattle.floats.specs.declared.Refusal.{Refusal};
ghost use Rattle.sigma.specs.Draw.{point_at, points_of, draw_of};

use crate::place;
use floats::{Number, Refusal};
use matrix::pivots::Pivots;
use matrix::{factor, layout};
use root::Rooted;

// Number i of point k: point 0 is x, then come n points x[i] + s·L[i][j], and n points x[i] − s·L[i][j].
fn point_at<T: Number>(n: usize, x: &[T; 8], l: &[T; 64], s: T, k: usize, i: usize) -> T
    requires { (n ≤ 8) × (i < n) × (k ≤ n + n) }
    ensures { T.float result ≡ point_at T.format n (T.floats x.now) (T.floats l.now) (T.float s) k i }
{
    if k == 0 {
        x[i]
    } else if k <= n {
        x[i] + s * l[layout::cell(i, n, k - 1)]
    } else {
        x[i] - s * l[layout::cell(i, n, k - 1 - n)]
    }
}

fn points<T: Number>(n: usize, x: &[T; 8], l: &[T; 64], s: T) -> [T; 136]
    requires { n ≤ 8 }
    ensures { T.floats result ≡ points_of T.format n (T.floats x.now) (T.floats l.now) (T.float s) }
{
    let mut out = [T::ZERO; 136];
    for k in 0..n + n + 1 {
        for i in 0..n {
            out[place(k, n, i)] = point_at(n, x, l, s, k, i);
        }
    }
    out
}

// The factor of P (7, 9), the root of N (56), and all points (9): the first refusal decides.
pub fn generate_sigma_points<T: Rooted>(
    n: usize,
    x: &[T; 8],
    p: &[T; 64],
    scale: T,
) -> Result<[T; 136], Refusal>
    requires { n ≤ 8 }
    ensures { T.seen (λ A. Result (List A) Refusal) result ≡ draw_of T.format n (T.floats x.now) (T.floats p.now) (T.float scale) }
{
    let l = factor::cholesky_decompose_lower(p, n, Pivots::OfP)?;
    let s = root::square_root(scale)?;
    let q = points(n, x, &l, s);
    if !floats::all_finite(&q, (n + n + 1) * n) {
        return Err(Refusal::Range);
    }
    Ok(q)
}
