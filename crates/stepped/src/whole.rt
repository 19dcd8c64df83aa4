// Between the two ways of an open call: the same filter at another stage, and what a stepped close tests before it is the whole-list close.
ghost use Rattle.std.specs.Prelude.{◌≡◌, true, false, not, ◌&&◌};
ghost use Rattle.floats.specs.Refusal.{refusal, nothing};
ghost use Rattle.filter.specs.Asked.{in_order};
ghost use Rattle.filter.specs.Calls.{due};
ghost use Rattle.stepped.specs.Ways.{at_stage, opened_at, unless_refused};

use crate::tests;
use filter::{Answer, Filter, Stage, Track, checks};
use floats::Verdict;

// At another stage, and else as it is.
pub fn at_stage(f: Filter<f64>, stage: Stage) -> Filter<f64>
    ensures { result ≡ at_stage f stage }
{
    let track = Track { stage, ..f.track };
    Filter { track, ..f }
}

// What a stepped open answers, by what the whole-list open has answered.
pub fn opened_at(a: Answer<f64>, stage: Stage) -> Answer<f64>
    ensures { result ≡ opened_at stage a }
{
    if a.refusal.number != 0 {
        return a;
    }
    let filter = at_stage(a.filter, stage);
    Answer { filter, ..a }
}

// What a stepped close answers, by what the whole-list close has answered: refused, it has changed nothing.
pub fn unless_refused(f: Filter<f64>, a: Answer<f64>) -> Answer<f64>
    ensures { result ≡ unless_refused f a }
{
    if a.refusal.number != 0 {
        return Answer { filter: f, ..a };
    }
    a
}

// That its own call is open with every image in (3), and that its m is the first image's (1).
pub fn unready(f: Filter<f64>, own: bool, named: bool) -> Verdict
    ensures { result ≡ refusal (in_order (own && not (due f)) named true true false false nothing true true nothing) }
{
    let fits = own && !tests::has_point(f.sheet.n, f.track.kept.at);
    checks::early_refusal(fits, named, true, false)
}
