// New of a pair: from n, x and P of the first, x and P of the second, Q and the parameters. 1 and 2 are each looked for in all of these before the next; then the numbers are searched, x and P of the first, x and P of the second, Q, parameters; then 6. Refused, both sides are empty.
ghost use Rattle.std.specs.Prelude.{◌≡◌};
ghost use Rattle.std.specs.Float.{binary64};
ghost use Rattle.pairs.specs.NewPair.{new_pair_answer};

use crate::{Pair, PairAnswer};
use filter::{Sheet, Track, new};
use sigma::Params;

impl Pair {
    pub fn new(
        n: usize,
        x1: &[f64],
        p1: &[f64],
        x2: &[f64],
        p2: &[f64],
        q: &[f64],
        params: Params<f64>,
    ) -> PairAnswer
        ensures { result ≡ new_pair_answer binary64 n x1.now p1.now x2.now p2.now q.now params }
    {
        let a = Track::new(n, x1, p1);
        let b = Track::new(n, x2, p2);
        let c = Sheet::new(n, q, params);
        let refusal = new::sooner(a.refusal, new::sooner(b.refusal, c.refusal));
        if refusal.number != 0 {
            let track = new::empty_track();
            return PairAnswer {
                pair: Pair {
                    sheet: new::empty_sheet(),
                    first: track,
                    second: track,
                },
                refusal,
            };
        }
        PairAnswer {
            pair: Pair {
                sheet: c.sheet,
                first: a.track,
                second: b.track,
            },
            refusal,
        }
    }
}
