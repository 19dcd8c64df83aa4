// The calls on one filter, at either width, that a line picks by its name, by what they are lent; and the f32 filter as what they are on.
ghost use Rattle.std.specs.Prelude.{◌≡◌};

use crate::answers;
use crate::subject::{Done, Subject};
use angles::Kind;
use filter::{Answer, Filter, ParamsRead, StaleRead};
use floats::{Number, Verdict};
use root::Rooted;
use script::Name;
use sigma::Params;

// setx, setp, setq, closep: a list.
pub fn with_list<T: Rooted>(name: Name, filter: Filter<T>, list: &[T]) -> Answer<T> {
    match name {
        Name::SetX => filter.set_x(list),
        Name::SetP => filter.set_p(list),
        Name::SetQ => filter.set_q(list),
        _ => filter.close_prediction(list),
    }
}

// A reading leaves the filter.
fn read<T: Copy>(filter: Filter<T>, refusal: Verdict) -> Answer<T>
    ensures { result ≡ record { filter = filter; refusal = refusal } }
{
    Answer { filter, refusal }
}

// readx, readp, readq, readpts: a buffer.
fn reading<T: Number>(name: Name, filter: Filter<T>, buffer: &mut [T]) -> Verdict {
    match name {
        Name::ReadX => filter.read_x(buffer),
        Name::ReadP => filter.read_p(buffer),
        Name::ReadQ => filter.read_q(buffer),
        _ => filter.read_points(buffer),
    }
}

// The same, or openp, openc.
pub fn with_buffer<T: Rooted>(name: Name, filter: Filter<T>, buffer: &mut [T]) -> Answer<T> {
    match name {
        Name::OpenPrediction => filter.open_prediction(buffer),
        Name::OpenCorrection => filter.open_correction(buffer),
        _ => read(filter, reading(name, filter, buffer)),
    }
}

// closec, closef: a measurement.
pub fn with_measurement<T: Rooted>(
    name: Name,
    filter: Filter<T>,
    m: usize,
    z: &[T],
    r: &[T],
    kinds: [Kind<T>; 4],
    observed: &[T],
) -> Answer<T> {
    match name {
        Name::CloseCorrection => filter.close_correction(m, z, r, kinds, observed),
        _ => filter.close_correction_flat(m, z, r, observed),
    }
}

// What is held after a call on a filter alone is the next filter.
fn left(a: Answer<f32>) -> Done<Filter<f32>>
    ensures { result ≡ record { held = a.filter; refusal = a.refusal } }
{
    Done {
        held: a.filter,
        refusal: a.refusal,
    }
}

impl Subject for Filter<f32> {
    type Float = f32;

    fn renewed(
        self,
        n: usize,
        x: &[f32],
        p: &[f32],
        q: &[f32],
        params: Params<f32>,
    ) -> Done<Filter<f32>> {
        left(Filter::new(n, x, p, q, params))
    }

    fn with_list(self, name: Name, list: &[f32]) -> Done<Filter<f32>> {
        left(with_list(name, self, list))
    }

    fn with_buffer(self, name: Name, buffer: &mut [f32]) -> Done<Filter<f32>> {
        left(with_buffer(name, self, buffer))
    }

    fn with_measurement(
        self,
        name: Name,
        m: usize,
        z: &[f32],
        r: &[f32],
        kinds: &[Kind<f32>; 4],
        observed: &[f32],
    ) -> Done<Filter<f32>> {
        left(with_measurement(name, self, m, z, r, *kinds, observed))
    }

    fn set_params(self, params: Params<f32>) -> Done<Filter<f32>> {
        left(self.set_params(params))
    }

    fn set_kind(self, i: usize, kind: Kind<f32>) -> Done<Filter<f32>> {
        left(self.set_kind(i, kind))
    }

    fn abandon(self) -> Done<Filter<f32>> {
        left(self.abandon())
    }

    fn read_params(self) -> ParamsRead<f32> {
        self.read_params()
    }

    fn read_stale(self) -> StaleRead {
        self.read_stale()
    }

    fn put_moments(self, out: &mut [u8], used: usize) -> usize {
        answers::put_moments(out, used, self)
    }

    // It has no stepped calls.
    fn put_all(self, out: &mut [u8], used: usize) -> usize {
        answers::put_filter(out, used, self)
    }
}
