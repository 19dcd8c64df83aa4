// A side of a pair with the sheet, as a filter; and the pair with what a call has left of its sides.
ghost use Rattle.std.specs.Prelude.{◌≡◌};
ghost use Rattle.pairs.specs.Pairs.{solo, put, rewritten};

use crate::{Pair, PairAnswer, Side};
use filter::{Answer, Filter};

pub fn solo(p: Pair, side: Side) -> Filter<f64>
    ensures { result ≡ solo p side }
{
    let track = match side {
        Side::First => p.first,
        Side::Second => p.second,
    };
    Filter {
        sheet: p.sheet,
        track,
    }
}

// After a call on one side that has come to this: the other track is as it was.
pub fn put(p: Pair, side: Side, a: Answer<f64>) -> PairAnswer
    ensures { result ≡ put p side a }
{
    let Filter { sheet, track } = a.filter;
    let pair = match side {
        Side::First => Pair {
            sheet,
            first: track,
            ..p
        },
        Side::Second => Pair {
            sheet,
            second: track,
            ..p
        },
    };
    PairAnswer {
        pair,
        refusal: a.refusal,
    }
}

// After a change of the sheet that has come to a on the first side and to b on the second. Each gives 3 while it has a call open; where neither has, both come to the same, since the sheet alone decides.
pub fn rewritten(p: Pair, a: Answer<f64>, b: Answer<f64>) -> PairAnswer
    ensures { result ≡ rewritten p a b }
{
    if a.refusal.number == 3 {
        return PairAnswer {
            pair: p,
            refusal: a.refusal,
        };
    }
    let refusal = b.refusal;
    if refusal.number != 0 {
        return PairAnswer { pair: p, refusal };
    }
    let sheet = a.filter.sheet;
    let first = a.filter.track;
    let second = b.filter.track;
    PairAnswer {
        pair: Pair {
            sheet,
            first,
            second,
        },
        refusal,
    }
}
