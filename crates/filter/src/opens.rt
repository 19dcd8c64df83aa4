// Open prediction and open correction, and abandon: what an open call has drawn lies beside the filter as it was.
ghost use Rattle.std.specs.Prelude.{◌≡◌, true, ◌≤◌, length, take};
ghost use Rattle.floats.specs.Refusal.{taken};
ghost use Rattle.floats.specs.Fronts.{over};
ghost use Rattle.sigma.specs.Draw.{point_numbers};
ghost use Rattle.filter.specs.Filters.{filter, is_whole, with_drawn};
ghost use Rattle.filter.specs.Calls.{setting, open_prediction, open_correction, opening, abandon};
ghost use Rattle.filter.specs.Steps.{step, answered};

use crate::{Answer, Filter, Stage, checks, drawn, fronts};
use root::Rooted;
use sigma::{draw, weights};

impl<T: Rooted> Filter<T> {
    // The call is open, and its points are written out.
    fn opened(&self, stage: Stage, weights: &[T; 17], points: &[T; 136], out: &mut [T]) -> Answer<T>
        requires { (self.now.sheet.n ≤ 8) × (point_numbers self.now.sheet.n ≤ length out.old) }
        ensures value { T.seen Answer result ≡ record { filter = filter (T.seen Filter self.now).sheet (with_drawn (T.seen Filter self.now).track stage (record { weights = T.floats weights.now; points = T.floats points.now })); refusal = taken } }
        ensures out_after { T.floats out.new ≡ over (take (point_numbers self.now.sheet.n) (T.floats points.now)) (T.floats out.old) }
    {
        let n = self.sheet.n;
        fronts::copy_front(points, checks::point_numbers(n, n), out);
        let track = drawn::with_drawn(self.track, stage, *weights, *points);
        let sheet = self.sheet;
        Filter { sheet, track }.answer(floats::placeless(0))
    }

    // An open call by the stage that it leads to. A correction that isn't stale has the current weights and points; else they are drawn afresh.
    fn open(&self, stage: Stage, out: &mut [T]) -> Answer<T>
        requires { is_whole stage ≡ true }
        ensures value { T.seen Answer result ≡ answered (step T.format (T.seen Filter self.now) (opening stage (T.floats out.old))) }
        ensures out_after { T.floats out.new ≡ over (step T.format (T.seen Filter self.now) (opening stage (T.floats out.old))).reply.given (T.floats out.old) }
    {
        let n = self.sheet.n;
        let shut = checks::is_shut(self.track.stage);
        let sized = checks::is_sized(n);
        let k = checks::point_numbers(n, n);
        let refusal = checks::early_refusal(shut, sized, k <= out.len(), false);
        if refusal.number != 0 {
            return self.answer(refusal);
        }
        let current = checks::is_correcting(stage) && !self.track.stale;
        if current {
            return self.opened(stage, &self.track.weights, &self.track.points, out);
        }
        let params = self.sheet.params;
        let scale = weights::scale(n, params);
        match draw::generate_sigma_points(n, &self.track.x, &self.track.p, scale) {
            Ok(points) => self.opened(stage, &weights::weights(n, params), &points, out),
            Err(refused) => self.answer(refused.verdict()),
        }
    }

    pub fn open_prediction(self, out: &mut [T]) -> Answer<T>
        ensures value { T.seen Answer result ≡ answered (step T.format (T.seen Filter self) (setting (open_prediction (T.floats out.old)))) }
        ensures out_after { T.floats out.new ≡ over (step T.format (T.seen Filter self) (setting (open_prediction (T.floats out.old)))).reply.given (T.floats out.old) }
    {
        self.open(Stage::Predicting, out)
    }

    pub fn open_correction(self, out: &mut [T]) -> Answer<T>
        ensures value { T.seen Answer result ≡ answered (step T.format (T.seen Filter self) (setting (open_correction (T.floats out.old)))) }
        ensures out_after { T.floats out.new ≡ over (step T.format (T.seen Filter self) (setting (open_correction (T.floats out.old)))).reply.given (T.floats out.old) }
    {
        self.open(Stage::Correcting, out)
    }

    pub fn abandon(self) -> Answer<T>
        ensures { T.seen Answer result ≡ answered (step T.format (T.seen Filter self) abandon) }
    {
        let shut = checks::is_shut(self.track.stage);
        let sized = checks::is_sized(self.sheet.n);
        let refusal = checks::early_refusal(!shut, sized, true, false);
        if refusal.number != 0 {
            return self.answer(refusal);
        }
        let track = drawn::shut(self.track);
        Filter { track, ..self }.answer(refusal)
    }
}
