// The weights of n states by the three parameters. Each operation is rounded once, in document 01's order.
ghost use Rattle.std.specs.Prelude.{◌≡◌, ◌≤◌};
ghost use Rattle.sigma.specs.declared.Params.{Params};
ghost use Rattle.sigma.specs.declared.weights.Weighting.{Weighting};
ghost use Rattle.sigma.specs.Weights.{scale_of, w0m_of, weights_of, weights_pass, computed};

use crate::Params;
use floats::Number;

// N, the weight of point 0 in means and in spreads, and the weight of every other point.
#[derive(Clone, Copy)]
pub struct Weighting<T> {
    pub scale: T,
    pub w0m: T,
    pub w0c: T,
    pub wi: T,
}

pub fn compute_weights<T: Number>(n: usize, p: Params<T>) -> Weighting<T>
    requires { n ≤ 8 }
    ensures { T.seen Weighting result ≡ computed T.format n (T.seen Params p) }
{
    let states = T::whole(n);
    let square = p.alpha * p.alpha;
    let lambda = square * (states + p.kappa) - states;
    let scale = states + lambda;
    let w0m = lambda / scale;
    Weighting {
        scale,
        w0m,
        w0c: w0m + (T::ONE - square + p.beta),
        wi: T::ONE / (T::whole(2) * scale),
    }
}

// N, whose root scales the factor in a draw.
pub fn scale<T: Number>(n: usize, p: Params<T>) -> T
    requires { n ≤ 8 }
    ensures { T.float result ≡ scale_of T.format n (T.seen Params p) }
{
    compute_weights(n, p).scale
}

// w0m, the weight of point 0 in means.
pub fn center_weight<T: Number>(n: usize, p: Params<T>) -> T
    requires { n ≤ 8 }
    ensures { T.float result ≡ w0m_of T.format n (T.seen Params p) }
{
    compute_weights(n, p).w0m
}

// The weights kept with the points: w0c, then wi for each of the other 2n points, +0 past them.
pub fn weights<T: Number>(n: usize, p: Params<T>) -> [T; 17]
    requires { n ≤ 8 }
    ensures { T.floats result ≡ weights_of T.format n (T.seen Params p) }
{
    let c = compute_weights(n, p);
    let mut w = [T::ZERO; 17];
    w[0] = c.w0c;
    for k in 1..n + n + 1 {
        w[k] = c.wi;
    }
    w
}

// What 6 asks: N finite and above 0, and w0m, w0c and wi finite.
pub fn weights_pass<T: Number>(n: usize, p: Params<T>) -> bool
    requires { n ≤ 8 }
    ensures { result ≡ weights_pass T.format n (T.seen Params p) }
{
    let Weighting {
        scale,
        w0m,
        w0c,
        wi,
    } = compute_weights(n, p);
    floats::is_above_zero(scale)
        && floats::is_finite(w0m)
        && floats::is_finite(w0c)
        && floats::is_finite(wi)
}
