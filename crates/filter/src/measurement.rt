// The measurement that a close of a correction is lent: tested, and taken into arrays.
ghost use Rattle.std.specs.Prelude.{◌≡◌, ◌&&◌, take};
ghost use Rattle.filter.specs.Asked.{in_range};
ghost use Rattle.filter.specs.Measurement.{taken_in, unmeasured, measured};

use crate::{checks, fronts, tests};
use floats::{Number, Slice, Verdict};

// Number and place, and z, R and the observed points, +0 where it is refused.
#[derive(Clone, Copy)]
pub struct Intake<T> {
    pub refusal: Verdict,
    pub z: [T; 8],
    pub r: [T; 64],
    pub observed: [T; 136],
}

// A refused one.
fn refuse<T: Number>(refusal: Verdict) -> Intake<T>
    ensures { T.seen Intake result ≡ unmeasured refusal }
{
    Intake {
        refusal,
        z: [T::ZERO; 8],
        r: [T::ZERO; 64],
        observed: [T::ZERO; 136],
    }
}

// Whether there are 1 to 8 states and 1 to 4 measurements.
fn is_sized(n: usize, m: usize) -> bool
    ensures { result ≡ (in_range 1 8 n && in_range 1 4 m) }
{
    checks::is_sized(n) && checks::in_range(1, 4, m)
}

// m and the slices are tested here; what else the close has tested takes its place among them, in the order of the refusals: whether it fits (3), whether the kinds that have to be plain are (10), whether its kinds pass (6). R, the observed points, z and then the first t half-turns are searched (53 to 56).
pub fn take_in<T: Number>(
    fits: bool,
    n: usize,
    m: usize,
    z: &[T],
    r: &[T],
    observed: &[T],
    turns: &[T; 4],
    t: usize,
    plain: bool,
    passing: bool,
) -> Intake<T>
    ensures { T.seen Intake result ≡ measured (taken_in (record { fits = fits; n = n; m = m; z = T.floats z.now; r = T.floats r.now; observed = T.floats observed.now; turns = take t (T.floats turns.now); plain = plain; passing = passing })) }
{
    let sized = is_sized(n, m);
    let mm = checks::square(m);
    let k = checks::point_numbers(n, m);
    let long = tests::all_long(z, m, r, mm, observed, k);
    let in_noise = floats::first_bad(Slice::Noise, r, mm);
    let in_points = floats::next_bad(in_noise, Slice::Points, observed, k);
    let in_measurement = floats::next_bad(in_points, Slice::Measurement, z, m);
    let found = floats::next_bad(in_measurement, Slice::Lone, turns, t);
    let refusal = checks::first_refusal(fits, sized, long, false, found, plain, passing);
    if refusal.number != 0 {
        return refuse(refusal);
    }
    let mut taken_z = [T::ZERO; 8];
    fronts::copy_front(z, m, &mut taken_z);
    let mut taken_r = [T::ZERO; 64];
    fronts::copy_front(r, mm, &mut taken_r);
    let mut taken_points = [T::ZERO; 136];
    fronts::copy_front(observed, k, &mut taken_points);
    Intake {
        refusal,
        z: taken_z,
        r: taken_r,
        observed: taken_points,
    }
}
