// One point at a time: a filter's open, ask, image and close, with no point list lent. A stepped open is the whole-list open whose list stays in the filter, and a stepped close is the whole-list close on the images that are in.
#![tactic(auto)]

ghost use Rattle.std.specs.Prelude.{◌≡◌};
ghost use Rattle.std.specs.Float.{binary64};
ghost use Rattle.floats.specs.Fronts.{over};
ghost use Rattle.filter.specs.Calls.{setting, open_prediction_stepped, open_correction_stepped, stepping, ask, image_prediction, image_correction, closing_stepped, close_prediction_stepped, close_correction_stepped, close_correction_flat_stepped};
ghost use Rattle.filter.specs.Steps.{step, answered};

use angles::Kind;
use filter::{Answer, Filter, Kept, Stage, Track, checks};
use floats::Slice;

mod kept;
mod tests;
mod whole;

// ---- open

pub fn open_prediction(f: Filter<f64>) -> Answer<f64>
    ensures { result ≡ answered (step binary64 f (setting open_prediction_stepped)) }
{
    let mut list = [0.0; 136];
    let a = f.open_prediction(&mut list);
    whole::opened_at(a, Stage::PredictingStepped)
}

pub fn open_correction(f: Filter<f64>) -> Answer<f64>
    ensures { result ≡ answered (step binary64 f (setting open_correction_stepped)) }
{
    let mut list = [0.0; 136];
    let a = f.open_correction(&mut list);
    whole::opened_at(a, Stage::CorrectingStepped)
}

// ---- the steps

// The point that is due. Asked for again it is the same, until its image is in.
pub fn ask(f: Filter<f64>, out: &mut [f64]) -> Answer<f64>
    ensures value { result ≡ answered (step binary64 f (stepping (ask out.old))) }
    ensures out_after { out.new ≡ over (step binary64 f (stepping (ask out.old))).reply.given out.old }
{
    let n = f.sheet.n;
    let at = f.track.kept.at;
    let fits = tests::is_stepped(f.track.stage) && tests::has_point(n, at);
    let sized = checks::is_sized(n);
    let refusal = checks::early_refusal(fits, sized, n <= out.len(), false);
    if refusal.number != 0 {
        return Answer { filter: f, refusal };
    }
    kept::copy(&f.track.drawn_points, at * n, n, out, 0);
    let kept = Kept {
        asked: true,
        ..f.track.kept
    };
    let track = Track { kept, ..f.track };
    Answer {
        filter: Filter { track, ..f },
        refusal,
    }
}

pub fn image_prediction(f: Filter<f64>, image: &[f64]) -> Answer<f64>
    ensures { result ≡ answered (step binary64 f (stepping (image_prediction image.now))) }
{
    let n = f.sheet.n;
    let fits = tests::is_predicting_stepped(f.track.stage) && tests::is_ready(n, f.track.kept);
    let sized = checks::is_sized(n);
    let found = floats::first_bad(Slice::Points, image, n);
    let refusal = checks::first_refusal(fits, sized, n <= image.len(), false, found, true, true);
    if refusal.number != 0 {
        return Answer { filter: f, refusal };
    }
    kept::take_in(f, 0, n, image)
}

pub fn image_correction(f: Filter<f64>, m: usize, image: &[f64]) -> Answer<f64>
    ensures { result ≡ answered (step binary64 f (stepping (image_correction m image.now))) }
{
    let n = f.sheet.n;
    let kept = f.track.kept;
    let fits = tests::is_correcting_stepped(f.track.stage) && tests::is_ready(n, kept);
    let sized = checks::is_sized(n) && tests::is_measured(kept.m, m);
    let found = floats::first_bad(Slice::Points, image, m);
    let refusal = checks::first_refusal(fits, sized, m <= image.len(), false, found, true, true);
    if refusal.number != 0 {
        return Answer { filter: f, refusal };
    }
    kept::take_in(f, m, m, image)
}

// ---- close

pub fn close_prediction(f: Filter<f64>) -> Answer<f64>
    ensures { result ≡ answered (step binary64 f (closing_stepped close_prediction_stepped)) }
{
    let own = tests::is_predicting_stepped(f.track.stage);
    let refusal = whole::unready(f, own, true);
    if refusal.number != 0 {
        return Answer { filter: f, refusal };
    }
    let g = whole::at_stage(f, Stage::Predicting);
    let a = g.close_prediction(&f.track.kept.images);
    whole::unless_refused(f, a)
}

pub fn close_correction(
    f: Filter<f64>,
    m: usize,
    z: &[f64],
    r: &[f64],
    kinds: [Kind<f64>; 4],
) -> Answer<f64>
    ensures { result ≡ answered (step binary64 f (closing_stepped (close_correction_stepped m z.now r.now kinds))) }
{
    let own = tests::is_correcting_stepped(f.track.stage);
    let named = tests::is_named(f.track.kept.m, m);
    let refusal = whole::unready(f, own, named);
    if refusal.number != 0 {
        return Answer { filter: f, refusal };
    }
    let g = whole::at_stage(f, Stage::Correcting);
    let a = g.close_correction(m, z, r, kinds, &f.track.kept.images);
    whole::unless_refused(f, a)
}

pub fn close_correction_flat(f: Filter<f64>, m: usize, z: &[f64], r: &[f64]) -> Answer<f64>
    ensures { result ≡ answered (step binary64 f (closing_stepped (close_correction_flat_stepped m z.now r.now))) }
{
    let own = tests::is_correcting_stepped(f.track.stage);
    let named = tests::is_named(f.track.kept.m, m);
    let refusal = whole::unready(f, own, named);
    if refusal.number != 0 {
        return Answer { filter: f, refusal };
    }
    let g = whole::at_stage(f, Stage::Correcting);
    let a = g.close_correction_flat(m, z, r, &f.track.kept.images);
    whole::unless_refused(f, a)
}
