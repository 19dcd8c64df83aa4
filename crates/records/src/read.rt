// What stands in a record, and whether it would do for a new filter.
ghost use Rattle.std.specs.Prelude.{◌≡◌, [], ◌∷◌, ◌++◌, ◌*◌, ◌≤◌, length, take};
ghost use Rattle.std.specs.Float.{binary64};
ghost use Rattle.floats.specs.Refusal.{refusal};
ghost use Rattle.filter.specs.Asked.{by_params};
ghost use Rattle.filter.specs.Calls.{as_kinds};
ghost use Rattle.filter.specs.New.{from, answer_of, inputs_for};
ghost use Rattle.filter.specs.Records.{record_length};
ghost use Rattle.filter.specs.Load.{states_in, turn_inputs};
ghost use Rattle.records.specs.Parts.{judged, contents_of};

use crate::turns;
use angles::Kind;
use filter::{Answer, Filter, Sheet, checks, new};
use floats::{Slice, Verdict};
use pieces::{kinds, numbers};
use sigma::{Params, weights};

// 51, 52, 53 and 56, then 6: whether the numbers and kinds would do for a new filter.
fn contents_refusal(
    n: usize,
    x: &[f64],
    p: &[f64],
    q: &[f64],
    params: Params<f64>,
    kinds: [Kind<f64>; 8],
) -> Verdict
    requires { n ≤ 8 }
    ensures { result ≡ refusal (judged binary64 (inputs_for n (from x.now p.now ∷ []) q.now params ++ turn_inputs (take n kinds)) (by_params n params ∷ as_kinds (take n kinds))) }
{
    let k = n * n;
    let in_x = floats::first_bad(Slice::State, x, n);
    let in_p = floats::next_bad(in_x, Slice::Covariance, p, k);
    let in_q = floats::next_bad(in_p, Slice::Noise, q, k);
    let values = [params.alpha, params.beta, params.kappa];
    let in_params = floats::next_bad(in_q, Slice::Lone, &values, 3);
    let in_turns = turns::first_bad_turn(n, kinds);
    let found = floats::earlier(in_params, in_turns);
    let passing = weights::weights_pass(n, params) && turns::turns_pass(n, kinds);
    checks::first_refusal(true, true, true, false, found, true, passing)
}

// The filter that a record of this form is of.
pub fn contents(s: &[u8]) -> Answer<f64>
    requires { (3 ≤ length s.now) × ((states_in s.now ≤ 8) × ((states_in s.now * states_in s.now ≤ 64) × (record_length (states_in s.now) ≤ length s.now))) }
    ensures { result ≡ answer_of (contents_of binary64 s.now) }
{
    let n = s[2] as usize;
    let k = n * n;
    let x = numbers::vector_at(s, 3, n);
    let p = numbers::matrix_at(s, 3 + 8 * n, k);
    let q = numbers::matrix_at(s, 3 + 8 * n + 8 * k, k);
    let params = Params {
        alpha: numbers::number_at(s, 3 + 8 * n + 16 * k),
        beta: numbers::number_at(s, 11 + 8 * n + 16 * k),
        kappa: numbers::number_at(s, 19 + 8 * n + 16 * k),
    };
    let kinds = kinds::kinds_at(s, 27 + 8 * n + 16 * k, n);
    let refusal = contents_refusal(n, &x, &p, &q, params, kinds);
    if refusal.number != 0 {
        return new::refused(refusal);
    }
    let sheet = Sheet {
        n,
        q,
        params,
        kinds,
    };
    let track = new::fresh_track(x, p);
    Answer {
        filter: Filter { sheet, track },
        refusal,
    }
}
