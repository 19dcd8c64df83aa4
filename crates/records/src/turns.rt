// The half-turns of a record's kinds, as load tests them.
ghost use Rattle.std.specs.Prelude.{◌≡◌, ◌≤◌, take};
ghost use Rattle.std.specs.Float.{binary64};
ghost use Rattle.floats.specs.Refusal.{refusal};
ghost use Rattle.floats.specs.Search.{searched};
ghost use Rattle.filter.specs.Asked.{passing, every};
ghost use Rattle.filter.specs.Load.{turn_inputs};

use angles::Kind;
use floats::Verdict;

// The search of the half-turns of the first n kinds: each is a lone value, at place 0.
pub fn first_bad_turn(n: usize, kinds: [Kind<f64>; 8]) -> Verdict
    requires { n ≤ 8 }
    ensures { result ≡ refusal (searched (turn_inputs (take n kinds))) }
{
    if kinds[..n].iter().all(|k| floats::is_finite(k.half())) {
        floats::placeless(0)
    } else {
        floats::placeless(56)
    }
}

// Whether the first n kinds pass 6.
pub fn turns_pass(n: usize, kinds: [Kind<f64>; 8]) -> bool
    requires { n ≤ 8 }
    ensures { result ≡ every (passing binary64) (take n kinds) }
{
    kinds[..n].iter().all(|k| k.passes())
}
