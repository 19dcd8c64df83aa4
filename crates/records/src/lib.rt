// Save and load (document 02, A8): the record of a filter into lent bytes, and a filter from the bytes of a record.
#![tactic(auto)]

ghost use Rattle.std.specs.Prelude.{◌≡◌, cond, leb};
ghost use Rattle.std.specs.Float.{binary64};
ghost use Rattle.floats.specs.Fronts.{over};
ghost use Rattle.filter.specs.Records.{record_length};
ghost use Rattle.filter.specs.Calls.{reading, save};
ghost use Rattle.filter.specs.Steps.{step};
ghost use Rattle.filter.specs.Load.{load_answer};

use filter::{Answer, Filter, checks, new};
use floats::Verdict;

mod form;
mod read;
mod turns;
mod write;

// The bytes of a record, of up to 8 states.
pub fn record_length(n: usize) -> usize
    ensures { result ≡ cond (leb n 8) (record_length n) 0 }
{
    if n <= 8 {
        27 + 17 * n + 16 * (n * n)
    } else {
        0
    }
}

// The record to the front of out; bytes beyond it stay. Only a stale filter with nothing open is saved.
pub fn save(f: Filter<f64>, out: &mut [u8]) -> Verdict
    ensures value { result ≡ (step binary64 f (reading (save out.old))).reply.refusal }
    ensures out_after { out.new ≡ over (step binary64 f (reading (save out.old))).reply.bytes out.old }
{
    let n = f.sheet.n;
    let fits = checks::is_shut(f.track.stage);
    let sized = checks::is_sized(n);
    let long = record_length(n) <= out.len();
    let refusal = checks::early_refusal(fits, sized, long, false);
    if refusal.number != 0 {
        return refusal;
    }
    if !f.track.stale {
        return floats::placeless(11);
    }
    write::put_record(f, out);
    refusal
}

// A filter with a sheet of its own, stale; refused, the empty filter.
pub fn load(s: &[u8]) -> Answer<f64>
    ensures { result ≡ load_answer binary64 s.now }
{
    let refusal = form::form_refusal(s);
    if refusal.number != 0 {
        return new::refused(refusal);
    }
    read::contents(s)
}
