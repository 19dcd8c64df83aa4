// Close prediction and the two ways to close a correction: x and P set, the points and the opened weights installed, scratch at +0.
ghost use Rattle.std.specs.Prelude.{◌≡◌, ◌≤◌, List, Result};
ghost use Rattle.sigma.specs.Weights.{w0m_of};
ghost use Rattle.filter.specs.Calls.{closing, close_prediction, close_correction, close_correction_flat};
ghost use Rattle.filter.specs.Steps.{step, answered, closed_by};

use crate::{Answer, Filter, Stage, Track, checks, drawn, fronts, measurement, tests};
use angles::Kind;
use correction::flat;
use floats::{Refusal, Slice};
use root::Rooted;
use sigma::{Moments, predict, weights};

impl<T: Rooted> Filter<T> {
    // What a close comes to by what its steps have made: refused, or x and P set and the points installed with the opened weights.
    fn close(&self, made: Result<Moments<T>, Refusal>, points: &[T; 136], stale: bool) -> Answer<T>
        ensures { T.seen Answer result ≡ closed_by (T.seen Filter self.now) (T.floats points.now) stale (T.seen (λ A. Result (Moments A) Refusal) made) }
    {
        let Moments { x, p } = match made {
            Ok(moments) => moments,
            Err(refused) => return self.answer(refused.verdict()),
        };
        let track = Track {
            x,
            p,
            weights: self.track.drawn_weights,
            points: *points,
            stale,
            stage: Stage::Shut,
            drawn_weights: [T::ZERO; 17],
            drawn_points: [T::ZERO; 136],
            kept: drawn::nothing_kept(),
        };
        let sheet = self.sheet;
        Filter { sheet, track }.answer(floats::placeless(0))
    }

    // The weight of the center point in a mean. A method, since a proof wants the parameters copied out from behind a reference.
    fn center_weight(&self) -> T
        requires { self.now.sheet.n ≤ 8 }
        ensures { T.float result ≡ w0m_of T.format (T.seen Filter self.now).sheet.n (T.seen Filter self.now).sheet.params }
    {
        weights::center_weight(self.sheet.n, self.sheet.params)
    }

    pub fn close_prediction(self, points: &[T]) -> Answer<T>
        ensures { T.seen Answer result ≡ answered (step T.format (T.seen Filter self) (closing (close_prediction (T.floats points.now)))) }
    {
        let n = self.sheet.n;
        let predicting = checks::is_predicting(self.track.stage);
        let k = checks::point_numbers(n, n);
        let refusal = tests::slice_refusal(predicting, n, k, Slice::Points, points);
        if refusal.number != 0 {
            return self.answer(refusal);
        }
        let propagated = fronts::filled(points, k);
        let w0m = self.center_weight();
        let made = predict::reconstruct_prediction(
            n,
            &propagated,
            w0m,
            &self.track.drawn_weights,
            &self.sheet.kinds,
            &self.sheet.q,
        );
        self.close(made, &propagated, false)
    }

    pub fn close_correction(
        self,
        m: usize,
        z: &[T],
        r: &[T],
        kinds: [Kind<T>; 4],
        observed: &[T],
    ) -> Answer<T>
        ensures { T.seen Answer result ≡ answered (step T.format (T.seen Filter self) (closing (close_correction m (T.floats z.now) (T.floats r.now) (T.seen (λ A. List (Kind A)) kinds) (T.floats observed.now)))) }
    {
        let n = self.sheet.n;
        let correcting = checks::is_correcting(self.track.stage);
        let turns = tests::halves(&kinds);
        let passing = tests::kinds_pass(m, &kinds);
        let lent = measurement::take_in(correcting, n, m, z, r, observed, &turns, m, true, passing);
        if lent.refusal.number != 0 {
            return self.answer(lent.refusal);
        }
        let w0m = self.center_weight();
        let made = correction::correct_with_weights_residuals(
            n,
            m,
            &self.track.x,
            &self.track.p,
            &self.track.drawn_points,
            &lent.observed,
            w0m,
            &self.track.drawn_weights,
            &lent.z,
            &lent.r,
            &self.sheet.kinds,
            kinds,
        );
        self.close(made, &self.track.drawn_points, true)
    }

    // By flat averages: they know neither weights nor kinds, so none of the first n state kinds may be a turn. What was opened is installed all the same, its weights too.
    pub fn close_correction_flat(self, m: usize, z: &[T], r: &[T], observed: &[T]) -> Answer<T>
        ensures { T.seen Answer result ≡ answered (step T.format (T.seen Filter self) (closing (close_correction_flat m (T.floats z.now) (T.floats r.now) (T.floats observed.now)))) }
    {
        let n = self.sheet.n;
        let correcting = checks::is_correcting(self.track.stage);
        let plain = tests::all_plain(n, &self.sheet.kinds);
        let turns = [T::ZERO; 4];
        let lent = measurement::take_in(correcting, n, m, z, r, observed, &turns, 0, plain, true);
        if lent.refusal.number != 0 {
            return self.answer(lent.refusal);
        }
        let made = flat::correct_nonlinear(
            n,
            m,
            &self.track.x,
            &self.track.p,
            &self.track.drawn_points,
            &lent.observed,
            &lent.z,
            &lent.r,
        );
        self.close(made, &self.track.drawn_points, true)
    }
}
