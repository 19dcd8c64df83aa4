// The inverse of A from its factor L, two passes for each column.
ghost use Rattle.std.specs.Prelude.{◌≡◌, ◌<◌, ◌≤◌};
ghost use Rattle.floats.specs.Numbers.{zeros};
ghost use Rattle.matrix.specs.Folds.{rows_of};
ghost use Rattle.matrix.specs.Inverse.{unit_at, forward_at, forward_of, backward_at, backward_of, column_at, inverse_of};

use crate::layout;
use floats::Number;

// 1 if i = c, else 0.
fn unit<T: Number>(c: usize, i: usize) -> T
    ensures { T.float result ≡ unit_at T.format c i }
{
    if i == c { T::ONE } else { T::ZERO }
}

// u[i]: the unit's number i, minus L[i][k]·u[k] for k below i in turn, over L[i][i].
fn forward_at<T: Number>(l: &[T; 64], m: usize, c: usize, u: &[T; 8], i: usize) -> T
    requires { (m ≤ 8) × (i < m) }
    ensures { T.float result ≡ forward_at T.format (T.floats l.now) m c (T.floats u.now) i }
{
    let mut s: T = unit(c, i);
    for k in 0..i {
        s = s - l[layout::cell(i, m, k)] * u[k];
    }
    s / l[layout::cell(i, m, i)]
}

fn forward<T: Number>(l: &[T; 64], m: usize, c: usize) -> [T; 8]
    requires { m ≤ 8 }
    ensures { T.floats result ≡ forward_of T.format (T.floats l.now) m c }
{
    let mut u = [T::ZERO; 8];
    for i in 0..m {
        u[i] = forward_at(l, m, c, &u, i);
    }
    u
}

// v[i]: u[i] minus L[k][i]·v[k] for k from i + 1 upward, over L[i][i].
fn backward_at<T: Number>(l: &[T; 64], m: usize, v: &[T; 8], i: usize) -> T
    requires { (m ≤ 8) × (i < m) }
    ensures { T.float result ≡ backward_at T.format (T.floats l.now) m (T.floats v.now) i }
{
    let mut s = v[i];
    for k in i + 1..m {
        s = s - l[layout::cell(k, m, i)] * v[k];
    }
    s / l[layout::cell(i, m, i)]
}

// From the last i down.
fn backward<T: Number>(l: &[T; 64], m: usize, u: [T; 8]) -> [T; 8]
    requires { m ≤ 8 }
    ensures { T.floats result ≡ backward_of T.format (T.floats l.now) m (T.floats u) }
{
    let mut v = u;
    for i in (0..m).rev() {
        v[i] = backward_at(l, m, &v, i);
    }
    v
}

// Column c of the inverse, number after number: row c of m rows.
fn columns<T: Number>(l: &[T; 64], m: usize) -> [T; 64]
    requires { m ≤ 8 }
    ensures { T.floats result ≡ rows_of (column_at T.format (T.floats l.now) m) m m (zeros 64) }
{
    let mut out = [T::ZERO; 64];
    for c in 0..m {
        let u = forward(l, m, c);
        let v = backward(l, m, u);
        for i in 0..m {
            out[layout::cell(c, m, i)] = v[i];
        }
    }
    out
}

// The inverse V of A: V[i][c] is number i of column c.
pub fn invert_l_cholesky<T: Number>(l: &[T; 64], m: usize) -> [T; 64]
    requires { m ≤ 8 }
    ensures { T.floats result ≡ inverse_of T.format (T.floats l.now) m }
{
    let w = columns(l, m);
    let mut out = [T::ZERO; 64];
    for i in 0..m {
        for c in 0..m {
            out[layout::cell(i, m, c)] = w[layout::cell(c, m, i)];
        }
    }
    out
}
