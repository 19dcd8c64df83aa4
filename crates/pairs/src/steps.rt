// One point at a time on a side: open, ask, image and close with no point list lent.
ghost use Rattle.std.specs.Prelude.{◌≡◌};
ghost use Rattle.std.specs.Float.{binary64};
ghost use Rattle.floats.specs.Fronts.{over};
ghost use Rattle.filter.specs.Calls.{setting, open_prediction_stepped, open_correction_stepped, stepping, ask, image_prediction, image_correction, closing_stepped, close_prediction_stepped, close_correction_stepped, close_correction_flat_stepped};
ghost use Rattle.pairs.specs.Pairs.{pair_step, pair_answered};

use crate::{Pair, PairAnswer, Side, sides};
use angles::Kind;

#[tactic(auto, using(crate::proofs::Calls::own_call, crate::proofs::Calls::own_given))]
impl Pair {
    pub fn open_prediction_stepped(self, side: Side) -> PairAnswer
        ensures { result ≡ pair_answered (pair_step binary64 self side (setting open_prediction_stepped)) }
    {
        let a = stepped::open_prediction(sides::solo(self, side));
        sides::put(self, side, a)
    }

    pub fn open_correction_stepped(self, side: Side) -> PairAnswer
        ensures { result ≡ pair_answered (pair_step binary64 self side (setting open_correction_stepped)) }
    {
        let a = stepped::open_correction(sides::solo(self, side));
        sides::put(self, side, a)
    }

    pub fn ask(self, side: Side, out: &mut [f64]) -> PairAnswer
        ensures value { result ≡ pair_answered (pair_step binary64 self side (stepping (ask out.old))) }
        ensures out_after { out.new ≡ over (pair_step binary64 self side (stepping (ask out.old))).reply.given out.old }
    {
        let a = stepped::ask(sides::solo(self, side), out);
        sides::put(self, side, a)
    }

    pub fn image_prediction(self, side: Side, image: &[f64]) -> PairAnswer
        ensures { result ≡ pair_answered (pair_step binary64 self side (stepping (image_prediction image.now))) }
    {
        let a = stepped::image_prediction(sides::solo(self, side), image);
        sides::put(self, side, a)
    }

    pub fn image_correction(self, side: Side, m: usize, image: &[f64]) -> PairAnswer
        ensures { result ≡ pair_answered (pair_step binary64 self side (stepping (image_correction m image.now))) }
    {
        let a = stepped::image_correction(sides::solo(self, side), m, image);
        sides::put(self, side, a)
    }

    pub fn close_prediction_stepped(self, side: Side) -> PairAnswer
        ensures { result ≡ pair_answered (pair_step binary64 self side (closing_stepped close_prediction_stepped)) }
    {
        let a = stepped::close_prediction(sides::solo(self, side));
        sides::put(self, side, a)
    }

    pub fn close_correction_stepped(
        self,
        side: Side,
        m: usize,
        z: &[f64],
        r: &[f64],
        kinds: [Kind<f64>; 4],
    ) -> PairAnswer
        ensures { result ≡ pair_answered (pair_step binary64 self side (closing_stepped (close_correction_stepped m z.now r.now kinds))) }
    {
        let a = stepped::close_correction(sides::solo(self, side), m, z, r, kinds);
        sides::put(self, side, a)
    }

    pub fn close_correction_flat_stepped(
        self,
        side: Side,
        m: usize,
        z: &[f64],
        r: &[f64],
    ) -> PairAnswer
        ensures { result ≡ pair_answered (pair_step binary64 self side (closing_stepped (close_correction_flat_stepped m z.now r.now))) }
    {
        let a = stepped::close_correction_flat(sides::solo(self, side), m, z, r);
        sides::put(self, side, a)
    }
}
