// Close a prediction, and a correction by either way, on a side.
ghost use Rattle.std.specs.Prelude.{◌≡◌};
ghost use Rattle.std.specs.Float.{binary64};
ghost use Rattle.filter.specs.Calls.{closing, close_prediction, close_correction, close_correction_flat};
ghost use Rattle.pairs.specs.Pairs.{pair_step, pair_answered};

use crate::{Pair, PairAnswer, Side, sides};
use angles::Kind;

#[tactic(auto, using(crate::proofs::Calls::own_call))]
impl Pair {
    pub fn close_prediction(self, side: Side, points: &[f64]) -> PairAnswer
        ensures { result ≡ pair_answered (pair_step binary64 self side (closing (close_prediction points.now))) }
    {
        let a = sides::solo(self, side).close_prediction(points);
        sides::put(self, side, a)
    }

    pub fn close_correction(
        self,
        side: Side,
        m: usize,
        z: &[f64],
        r: &[f64],
        kinds: [Kind<f64>; 4],
        observed: &[f64],
    ) -> PairAnswer
        ensures { result ≡ pair_answered (pair_step binary64 self side (closing (close_correction m z.now r.now kinds observed.now))) }
    {
        let a = sides::solo(self, side).close_correction(m, z, r, kinds, observed);
        sides::put(self, side, a)
    }

    pub fn close_correction_flat(
        self,
        side: Side,
        m: usize,
        z: &[f64],
        r: &[f64],
        observed: &[f64],
    ) -> PairAnswer
        ensures { result ≡ pair_answered (pair_step binary64 self side (closing (close_correction_flat m z.now r.now observed.now))) }
    {
        let a = sides::solo(self, side).close_correction_flat(m, z, r, observed);
        sides::put(self, side, a)
    }
}
