// Open a prediction or a correction on a side, and abandon it.
ghost use Rattle.std.specs.Prelude.{◌≡◌};
ghost use Rattle.std.specs.Float.{binary64};
ghost use Rattle.floats.specs.Fronts.{over};
ghost use Rattle.filter.specs.Calls.{setting, open_prediction, open_correction, abandon};
ghost use Rattle.pairs.specs.Pairs.{pair_step, pair_answered};

use crate::{Pair, PairAnswer, Side, sides};

#[tactic(auto, using(crate::proofs::Calls::own_call, crate::proofs::Calls::own_given))]
impl Pair {
    pub fn open_prediction(self, side: Side, out: &mut [f64]) -> PairAnswer
        ensures value { result ≡ pair_answered (pair_step binary64 self side (setting (open_prediction out.old))) }
        ensures out_after { out.new ≡ over (pair_step binary64 self side (setting (open_prediction out.old))).reply.given out.old }
    {
        let a = sides::solo(self, side).open_prediction(out);
        sides::put(self, side, a)
    }

    pub fn open_correction(self, side: Side, out: &mut [f64]) -> PairAnswer
        ensures value { result ≡ pair_answered (pair_step binary64 self side (setting (open_correction out.old))) }
        ensures out_after { out.new ≡ over (pair_step binary64 self side (setting (open_correction out.old))).reply.given out.old }
    {
        let a = sides::solo(self, side).open_correction(out);
        sides::put(self, side, a)
    }

    pub fn abandon(self, side: Side) -> PairAnswer
        ensures { result ≡ pair_answered (pair_step binary64 self side abandon) }
    {
        let a = sides::solo(self, side).abandon();
        sides::put(self, side, a)
    }
}
