// Sums of products of rows, and sums and differences of matrices. Each operation is rounded once.
ghost use Rattle.std.specs.Prelude.{◌≡◌, ◌+◌, ◌≤◌};
ghost use Rattle.matrix.specs.Sums.{dot_of, less_of, plus_of, minus_of};

use floats::Number;

// The sum over k below n, from +0 upward, of x[r + k]·y[s + k].
pub fn dot<T: Number>(x: &[T; 64], r: usize, y: &[T; 64], s: usize, n: usize) -> T
    requires { (r + n ≤ 64) × (s + n ≤ 64) }
    ensures { T.float result ≡ dot_of T.format (T.floats x.now) r (T.floats y.now) s n }
{
    let mut t = T::ZERO;
    for k in 0..n {
        t = t + x[r + k] * y[s + k];
    }
    t
}

// a minus l[r + k]·l[s + k] for each k below n in turn.
pub fn less<T: Number>(a: T, l: &[T; 64], r: usize, s: usize, n: usize) -> T
    requires { (r + n ≤ 64) × (s + n ≤ 64) }
    ensures { T.float result ≡ less_of T.format (T.float a) (T.floats l.now) r s n }
{
    let mut t = a;
    for k in 0..n {
        t = t - l[r + k] * l[s + k];
    }
    t
}

// a + b over the first k places, +0 after them.
pub fn plus<T: Number>(k: usize, a: &[T; 64], b: &[T; 64]) -> [T; 64]
    requires { k ≤ 64 }
    ensures { T.floats result ≡ plus_of T.format k (T.floats a.now) (T.floats b.now) }
{
    let mut out = [T::ZERO; 64];
    for i in 0..k {
        out[i] = a[i] + b[i];
    }
    out
}

// a − b over the first k places, +0 after them.
pub fn minus<T: Number>(k: usize, a: &[T; 64], b: &[T; 64]) -> [T; 64]
    requires { k ≤ 64 }
    ensures { T.floats result ≡ minus_of T.format k (T.floats a.now) (T.floats b.now) }
{
    let mut out = [T::ZERO; 64];
    for i in 0..k {
        out[i] = a[i] - b[i];
    }
    out
}
