// Readings of a side and of the sheet.
ghost use Rattle.std.specs.Prelude.{◌≡◌};
ghost use Rattle.std.specs.Float.{binary64};
ghost use Rattle.floats.specs.Fronts.{over};
ghost use Rattle.filter.specs.Calls.{reading, read_x, read_p, read_q, read_points, read_params, read_stale, save};
ghost use Rattle.filter.specs.Steps.{params_read, stale_read};
ghost use Rattle.pairs.specs.Pairs.{pair_step};

use crate::{Pair, Side, sides};
use filter::{ParamsRead, StaleRead};
use floats::Verdict;

#[tactic(auto, using(crate::proofs::Calls::own_refusal, crate::proofs::Calls::own_given, crate::proofs::Calls::own_bytes, crate::proofs::Calls::own_params, crate::proofs::Calls::own_stale))]
impl Pair {
    pub fn read_x(self, side: Side, out: &mut [f64]) -> Verdict
        ensures value { result ≡ (pair_step binary64 self side (reading (read_x out.old))).reply.refusal }
        ensures out_after { out.new ≡ over (pair_step binary64 self side (reading (read_x out.old))).reply.given out.old }
    {
        sides::solo(self, side).read_x(out)
    }

    pub fn read_p(self, side: Side, out: &mut [f64]) -> Verdict
        ensures value { result ≡ (pair_step binary64 self side (reading (read_p out.old))).reply.refusal }
        ensures out_after { out.new ≡ over (pair_step binary64 self side (reading (read_p out.old))).reply.given out.old }
    {
        sides::solo(self, side).read_p(out)
    }

    pub fn read_q(self, side: Side, out: &mut [f64]) -> Verdict
        ensures value { result ≡ (pair_step binary64 self side (reading (read_q out.old))).reply.refusal }
        ensures out_after { out.new ≡ over (pair_step binary64 self side (reading (read_q out.old))).reply.given out.old }
    {
        sides::solo(self, side).read_q(out)
    }

    pub fn read_points(self, side: Side, out: &mut [f64]) -> Verdict
        ensures value { result ≡ (pair_step binary64 self side (reading (read_points out.old))).reply.refusal }
        ensures out_after { out.new ≡ over (pair_step binary64 self side (reading (read_points out.old))).reply.given out.old }
    {
        sides::solo(self, side).read_points(out)
    }

    pub fn read_params(self, side: Side) -> ParamsRead<f64>
        ensures { result ≡ params_read (pair_step binary64 self side (reading read_params)).reply }
    {
        sides::solo(self, side).read_params()
    }

    pub fn read_stale(self, side: Side) -> StaleRead
        ensures { result ≡ stale_read (pair_step binary64 self side (reading read_stale)).reply }
    {
        sides::solo(self, side).read_stale()
    }

    // A side is saved as the filter that it is, with the sheet in the record: what is loaded from it has a sheet of its own.
    pub fn save(self, side: Side, out: &mut [u8]) -> Verdict
        ensures value { result ≡ (pair_step binary64 self side (reading (save out.old))).reply.refusal }
        ensures out_after { out.new ≡ over (pair_step binary64 self side (reading (save out.old))).reply.bytes out.old }
    {
        records::save(sides::solo(self, side), out)
    }
}
