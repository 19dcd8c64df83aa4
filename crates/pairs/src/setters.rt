// Set x and P of a side; and Q, the parameters and a kind of the sheet. These three name no side: the change is the same through either, and refused by 3 while either has a call open.
ghost use Rattle.std.specs.Prelude.{◌≡◌};
ghost use Rattle.std.specs.Float.{binary64};
ghost use Rattle.filter.specs.Calls.{writing, setting, set_x, set_p, set_q, set_params, set_kind};
ghost use Rattle.pairs.specs.declared.Side.{Side};
ghost use Rattle.pairs.specs.Pairs.{pair_step, pair_answered};

use crate::{Pair, PairAnswer, Side, sides};
use angles::Kind;
use sigma::Params;

#[tactic(auto, using(crate::proofs::Calls::own_call, crate::proofs::Calls::sheet_call))]
impl Pair {
    pub fn set_x(self, side: Side, src: &[f64]) -> PairAnswer
        ensures { result ≡ pair_answered (pair_step binary64 self side (setting (set_x src.now))) }
    {
        let a = sides::solo(self, side).set_x(src);
        sides::put(self, side, a)
    }

    pub fn set_p(self, side: Side, src: &[f64]) -> PairAnswer
        ensures { result ≡ pair_answered (pair_step binary64 self side (setting (set_p src.now))) }
    {
        let a = sides::solo(self, side).set_p(src);
        sides::put(self, side, a)
    }

    pub fn set_q(self, src: &[f64]) -> PairAnswer
        ensures { (side : Side) → result ≡ pair_answered (pair_step binary64 self side (writing (set_q src.now))) }
    {
        let a = sides::solo(self, Side::First).set_q(src);
        let b = sides::solo(self, Side::Second).set_q(src);
        sides::rewritten(self, a, b)
    }

    pub fn set_params(self, params: Params<f64>) -> PairAnswer
        ensures { (side : Side) → result ≡ pair_answered (pair_step binary64 self side (writing (set_params params))) }
    {
        let a = sides::solo(self, Side::First).set_params(params);
        let b = sides::solo(self, Side::Second).set_params(params);
        sides::rewritten(self, a, b)
    }

    pub fn set_kind(self, i: usize, kind: Kind<f64>) -> PairAnswer
        ensures { (side : Side) → result ≡ pair_answered (pair_step binary64 self side (writing (set_kind i kind))) }
    {
        let a = sides::solo(self, Side::First).set_kind(i, kind);
        let b = sides::solo(self, Side::Second).set_kind(i, kind);
        sides::rewritten(self, a, b)
    }
}
