// Readings, at any time, into lent buffers or as values; the current points only when not stale.
ghost use Rattle.std.specs.Prelude.{◌≡◌, true, Bool, [], ◌≤◌, length, take};
ghost use Rattle.floats.specs.Refusal.{accepted, or};
ghost use Rattle.floats.specs.Fronts.{over};
ghost use Rattle.filter.specs.Asked.{in_range, guarded, first_refusal};
ghost use Rattle.filter.specs.Calls.{line, lend, reading, read_x, read_p, read_q, read_points, read_params, read_stale};
ghost use Rattle.filter.specs.Steps.{step, params_read, stale_read};

use crate::{Filter, ParamsRead, StaleRead, checks, fronts, new};
use floats::{Number, Verdict};

// A reading of the first k numbers of s, stopped where they are stale.
fn read<T: Number>(n: usize, k: usize, stale: bool, s: &[T], out: &mut [T]) -> Verdict
    requires { n ≤ 8 → k ≤ length s.now }
    ensures value { result ≡ first_refusal T.format (line true n [] (lend (T.floats out.old) k) stale [] []) }
    ensures out_after { T.floats out.new ≡ over (or [] (guarded T.format (line true n [] (lend (T.floats out.old) k) stale [] []) (accepted (take k (T.floats s.now))))) (T.floats out.old) }
{
    let sized = checks::is_sized(n);
    let refusal = checks::early_refusal(true, sized, k <= out.len(), stale);
    if refusal.number == 0 {
        fronts::copy_front(s, k, out);
    }
    refusal
}

impl<T: Number> Filter<T> {
    pub fn read_x(self, out: &mut [T]) -> Verdict
        ensures value { result ≡ (step T.format (T.seen Filter self) (reading (read_x (T.floats out.old)))).reply.refusal }
        ensures out_after { T.floats out.new ≡ over (step T.format (T.seen Filter self) (reading (read_x (T.floats out.old)))).reply.given (T.floats out.old) }
    {
        let n = self.sheet.n;
        read(n, n, false, &self.track.x, out)
    }

    pub fn read_p(self, out: &mut [T]) -> Verdict
        ensures value { result ≡ (step T.format (T.seen Filter self) (reading (read_p (T.floats out.old)))).reply.refusal }
        ensures out_after { T.floats out.new ≡ over (step T.format (T.seen Filter self) (reading (read_p (T.floats out.old)))).reply.given (T.floats out.old) }
    {
        let n = self.sheet.n;
        read(n, checks::square(n), false, &self.track.p, out)
    }

    pub fn read_q(self, out: &mut [T]) -> Verdict
        ensures value { result ≡ (step T.format (T.seen Filter self) (reading (read_q (T.floats out.old)))).reply.refusal }
        ensures out_after { T.floats out.new ≡ over (step T.format (T.seen Filter self) (reading (read_q (T.floats out.old)))).reply.given (T.floats out.old) }
    {
        let n = self.sheet.n;
        read(n, checks::square(n), false, &self.sheet.q, out)
    }

    pub fn read_points(self, out: &mut [T]) -> Verdict
        ensures value { result ≡ (step T.format (T.seen Filter self) (reading (read_points (T.floats out.old)))).reply.refusal }
        ensures out_after { T.floats out.new ≡ over (step T.format (T.seen Filter self) (reading (read_points (T.floats out.old)))).reply.given (T.floats out.old) }
    {
        let n = self.sheet.n;
        let k = checks::point_numbers(n, n);
        read(n, k, self.track.stale, &self.track.points, out)
    }

    pub fn read_params(self) -> ParamsRead<T>
        ensures { T.seen ParamsRead result ≡ params_read (step T.format (T.seen Filter self) (reading read_params)).reply }
    {
        let sized = checks::is_sized(self.sheet.n);
        let refusal = checks::early_refusal(true, sized, true, false);
        if refusal.number != 0 {
            let params = new::empty_params();
            return ParamsRead { refusal, params };
        }
        let params = self.sheet.params;
        ParamsRead { refusal, params }
    }

    pub fn read_stale(self) -> StaleRead
        ensures { result ≡ stale_read (step T.format (T.seen Filter self) (reading read_stale)).reply }
    {
        let sized = checks::is_sized(self.sheet.n);
        let refusal = checks::early_refusal(true, sized, true, false);
        StaleRead {
            refusal,
            stale: refusal.number != 0 || self.track.stale,
        }
    }
}
