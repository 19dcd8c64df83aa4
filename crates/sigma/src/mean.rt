// The mean of points taken from point 0: points of d numbers each, the last of index t.
ghost use Rattle.std.specs.Prelude.{◌≡◌, ◌<◌, ◌≤◌, List};
ghost use Rattle.angles.specs.declared.Kind.{Kind};
ghost use Rattle.sigma.specs.Mean.{weight_sum_of, offset_of, mean_of};

use crate::place;
use angles::Kind;
use floats::Number;

// w0m plus the weights of points 1 to t, in turn.
fn weight_sum<T: Number>(w0m: T, w: &[T; 17], t: usize) -> T
    requires { t < 17 }
    ensures { T.float result ≡ weight_sum_of T.format (T.float w0m) (T.floats w.now) t }
{
    let mut s = w0m;
    for k in 0..t {
        s = s + w[k + 1];
    }
    s
}

// Entry i: the sum over points 1 to t of weight times difference from point 0, passed through the kind.
fn offset<T: Number>(
    p: &[T; 136],
    d: usize,
    t: usize,
    w: &[T; 17],
    kinds: &[Kind<T>; 8],
    i: usize,
) -> T
    requires { (t < 17) × (d ≤ 8) × (i < d) }
    ensures { T.float result ≡ offset_of T.format (T.floats p.now) d t (T.floats w.now) (T.seen (λ A. List (Kind A)) kinds.now) i }
{
    let mut s = T::ZERO;
    for k in 0..t {
        let at = place(k + 1, d, i);
        s = s + w[k + 1] * kinds[i].through(p[at] - p[i]);
    }
    s
}

// Weight sum times point 0, plus the offset.
pub fn anchored_mean<T: Number>(
    p: &[T; 136],
    d: usize,
    t: usize,
    w0m: T,
    w: &[T; 17],
    kinds: &[Kind<T>; 8],
) -> [T; 8]
    requires { (t < 17) × (d ≤ 8) }
    ensures { T.floats result ≡ mean_of T.format (T.floats p.now) d t (T.float w0m) (T.floats w.now) (T.seen (λ A. List (Kind A)) kinds.now) }
{
    let sum = weight_sum(w0m, w, t);
    let mut mean = [T::ZERO; 8];
    for i in 0..d {
        mean[i] = sum * p[i] + offset(p, d, t, w, kinds, i);
    }
    mean
}
