// Set x, P, Q, the parameters and a kind. None of them touches points or weights; each but that of Q marks the filter stale.
ghost use Rattle.std.specs.Prelude.{◌≡◌};
ghost use Rattle.filter.specs.Calls.{writing, setting, set_x, set_p, set_q, set_params, set_kind};
ghost use Rattle.filter.specs.Steps.{step, answered};

use crate::{Answer, Filter, Sheet, Track, checks, fronts, tests};
use angles::Kind;
use floats::{Number, Slice};
use sigma::Params;

impl<T: Number> Filter<T> {
    pub fn set_x(self, src: &[T]) -> Answer<T>
        ensures { T.seen Answer result ≡ answered (step T.format (T.seen Filter self) (setting (set_x (T.floats src.now)))) }
    {
        let n = self.sheet.n;
        let shut = checks::is_shut(self.track.stage);
        let refusal = tests::slice_refusal(shut, n, n, Slice::State, src);
        if refusal.number != 0 {
            return self.answer(refusal);
        }
        let x = fronts::filled(src, n);
        let track = Track {
            x,
            stale: true,
            ..self.track
        };
        Filter { track, ..self }.answer(refusal)
    }

    pub fn set_p(self, src: &[T]) -> Answer<T>
        ensures { T.seen Answer result ≡ answered (step T.format (T.seen Filter self) (setting (set_p (T.floats src.now)))) }
    {
        let n = self.sheet.n;
        let shut = checks::is_shut(self.track.stage);
        let k = checks::square(n);
        let refusal = tests::slice_refusal(shut, n, k, Slice::Covariance, src);
        if refusal.number != 0 {
            return self.answer(refusal);
        }
        let p = fronts::filled(src, k);
        let track = Track {
            p,
            stale: true,
            ..self.track
        };
        Filter { track, ..self }.answer(refusal)
    }

    pub fn set_q(self, src: &[T]) -> Answer<T>
        ensures { T.seen Answer result ≡ answered (step T.format (T.seen Filter self) (writing (set_q (T.floats src.now)))) }
    {
        let n = self.sheet.n;
        let shut = checks::is_shut(self.track.stage);
        let k = checks::square(n);
        let refusal = tests::slice_refusal(shut, n, k, Slice::Noise, src);
        if refusal.number != 0 {
            return self.answer(refusal);
        }
        let q = fronts::filled(src, k);
        let sheet = Sheet { q, ..self.sheet };
        Filter { sheet, ..self }.answer(refusal)
    }

    pub fn set_params(self, params: Params<T>) -> Answer<T>
        ensures { T.seen Answer result ≡ answered (step T.format (T.seen Filter self) (writing (set_params (T.seen Params params)))) }
    {
        let n = self.sheet.n;
        let shut = checks::is_shut(self.track.stage);
        let sized = checks::is_sized(n);
        let values = tests::values(params);
        let found = floats::first_bad(Slice::Lone, &values, 3);
        let passing = tests::params_pass(n, params);
        let refusal = checks::first_refusal(shut, sized, true, false, found, true, passing);
        if refusal.number != 0 {
            return self.answer(refusal);
        }
        let sheet = Sheet {
            params,
            ..self.sheet
        };
        let track = Track {
            stale: true, // its points and weights are the old parameters'
            ..self.track
        };
        Filter { sheet, track }.answer(refusal)
    }

    pub fn set_kind(self, i: usize, kind: Kind<T>) -> Answer<T>
        ensures { T.seen Answer result ≡ answered (step T.format (T.seen Filter self) (writing (set_kind i (T.seen Kind kind)))) }
    {
        let n = self.sheet.n;
        let shut = checks::is_shut(self.track.stage);
        let sized = checks::is_state(i, n);
        let found = floats::first_bad(Slice::Lone, &[kind.half()], 1);
        let passing = kind.passes();
        let refusal = checks::first_refusal(shut, sized, true, false, found, true, passing);
        if refusal.number != 0 {
            return self.answer(refusal);
        }
        let mut kinds = self.sheet.kinds;
        kinds[i] = kind;
        let sheet = Sheet {
            kinds,
            ..self.sheet
        };
        let track = Track {
            stale: true,
            ..self.track
        };
        Filter { sheet, track }.answer(refusal)
    }
}
