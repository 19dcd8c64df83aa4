// The factor L of A.
ghost use Rattle.std.specs.Prelude.{◌≡◌, ◌≤◌, List, Result};
ghost use Rattle.matrix.specs.Results.{worked};
ghost use Rattle.matrix.specs.Factor.{refused_by, factor_of};

use crate::pivots::Pivots;
use crate::{layout, pivots, sums};
use floats::Refusal;
use root::Rooted;

// The factor of A, whose lower triangle stands in the front of a, row by row. The work stops at the first refused entry. A pivot that passes always has a root.
pub fn cholesky_decompose_lower<T: Rooted>(
    a: &[T; 64],
    n: usize,
    of: Pivots,
) -> Result<[T; 64], Refusal>
    requires { n ≤ 8 }
    ensures { T.seen (λ A. Result (List A) Refusal) result ≡ worked (factor_of T.format (refused_by of) (T.floats a.now) n) }
{
    let mut l = [T::ZERO; 64];
    for j in 0..n {
        let s = layout::row(j, n);
        let pivot = sums::less(a[s + j], &l, s, s, j);
        if !floats::is_above_zero(pivot) {
            return Err(pivots::refused_by(of, j));
        }
        let d = root::square_root(pivot)?;
        l[s + j] = d;
        for i in j + 1..n {
            let r = layout::row(i, n);
            let e = sums::less(a[r + j], &l, r, s, j) / d;
            if !floats::is_finite(e) {
                return Err(Refusal::Range);
            }
            l[r + j] = e;
        }
    }
    Ok(l)
}
