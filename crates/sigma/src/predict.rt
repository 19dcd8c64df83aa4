// The prediction: x and P from propagated points.
ghost use Rattle.std.specs.Prelude.{◌≡◌, ◌≤◌, Result, List};
ghost use Rattle.floats.specs.declared.Refusal.{Refusal};
ghost use Rattle.angles.specs.declared.Kind.{Kind};
ghost use Rattle.sigma.specs.declared.Moments.{Moments};
ghost use Rattle.sigma.specs.Predict.{predict_of};

use crate::{Moments, mean, spread};
use angles::Kind;
use floats::{Number, Refusal};
use matrix::sums;

// The anchored mean of the propagated points (9), then Q plus their spread (9).
pub fn reconstruct_prediction<T: Number>(
    n: usize,
    points: &[T; 136],
    w0m: T,
    w: &[T; 17],
    kinds: &[Kind<T>; 8],
    q: &[T; 64],
) -> Result<Moments<T>, Refusal>
    requires { n ≤ 8 }
    ensures { T.seen (λ A. Result (Moments A) Refusal) result ≡ predict_of T.format n (T.floats points.now) (T.float w0m) (T.floats w.now) (T.seen (λ A. List (Kind A)) kinds.now) (T.floats q.now) }
{
    let t = n + n;
    let x = mean::anchored_mean(points, n, t, w0m, w, kinds);
    if !floats::all_finite(&x, n) {
        return Err(Refusal::Range);
    }
    let dx = spread::deviations(points, n, t, &x, kinds);
    let s = spread::spread(&dx, n, &dx, n, w, t);
    let p = sums::plus(n * n, q, &s);
    if !floats::all_finite(&p, n * n) {
        return Err(Refusal::Range);
    }
    Ok(Moments { x, p })
}
