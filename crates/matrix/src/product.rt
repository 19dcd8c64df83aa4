// The product with a transpose.
ghost use Rattle.std.specs.Prelude.{◌≡◌, ◌≤◌};
ghost use Rattle.matrix.specs.Product.{transb_of};

use crate::{layout, sums};
use floats::Number;

// A·Bᵀ of n rows and m rows of d: n rows of m cells, each a sum from +0 upward.
pub fn mult_transb<T: Number>(a: &[T; 64], n: usize, b: &[T; 64], m: usize, d: usize) -> [T; 64]
    requires { (n ≤ 8) × (m ≤ 8) × (d ≤ 8) }
    ensures { T.floats result ≡ transb_of T.format (T.floats a.now) (T.floats b.now) d n m }
{
    let mut out = [T::ZERO; 64];
    for i in 0..n {
        for j in 0..m {
            out[layout::cell(i, m, j)] = sums::dot(a, layout::row(i, d), b, layout::row(j, d), d);
        }
    }
    out
}
