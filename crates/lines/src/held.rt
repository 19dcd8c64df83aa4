// What the f64 calls of a script are on, the current filter and the current pair, and each call on the filter or on a side.
ghost use Rattle.std.specs.Prelude.{◌≡◌};

use crate::subject::{Done, Subject};
use crate::{answers, solo};
use angles::Kind;
use filter::{Answer, Filter, ParamsRead, StaleRead};
use floats::Verdict;
use pairs::{Pair, PairAnswer, Side};
use script::Name;
use sigma::Params;

// What is held, and whose call the line is.
#[derive(Clone, Copy)]
pub struct Held {
    pub filter: Filter<f64>,
    pub pair: Pair,
    pub whose: Whose,
}

// The filter's, or that of a side of the pair.
#[derive(Clone, Copy)]
pub enum Whose {
    Alone,
    On(Side),
}

// Another's call is next.
pub fn turned(held: Held, whose: Whose) -> Held
    ensures { result ≡ record { filter = held.filter; pair = held.pair; whose = whose } }
{
    Held { whose, ..held }
}

// A call on one of the two leaves the other.
pub fn alone(held: Held, a: Answer<f64>) -> Done<Held>
    ensures { result ≡ record { held = record { filter = a.filter; pair = held.pair; whose = held.whose }; refusal = a.refusal } }
{
    Done {
        held: Held {
            filter: a.filter,
            ..held
        },
        refusal: a.refusal,
    }
}

pub fn paired(held: Held, a: PairAnswer) -> Done<Held>
    ensures { result ≡ record { held = record { filter = held.filter; pair = a.pair; whose = held.whose }; refusal = a.refusal } }
{
    Done {
        held: Held {
            pair: a.pair,
            ..held
        },
        refusal: a.refusal,
    }
}

// A reading leaves the pair.
fn read(pair: Pair, refusal: Verdict) -> PairAnswer
    ensures { result ≡ record { pair = pair; refusal = refusal } }
{
    PairAnswer { pair, refusal }
}

// What a call does that is lent a list: imagep, or one that any filter has.
fn own_list(name: Name, filter: Filter<f64>, list: &[f64]) -> Answer<f64> {
    match name {
        Name::ImagePrediction => stepped::image_prediction(filter, list),
        _ => solo::with_list(name, filter, list),
    }
}

fn side_list(name: Name, pair: Pair, side: Side, list: &[f64]) -> PairAnswer {
    match name {
        Name::SetX => pair.set_x(side, list),
        Name::SetP => pair.set_p(side, list),
        Name::SetQ => pair.set_q(list),
        Name::ImagePrediction => pair.image_prediction(side, list),
        _ => pair.close_prediction(side, list),
    }
}

// What a reading does, and any call that is lent a buffer: ask, or one that any filter has.
fn own_buffer(name: Name, filter: Filter<f64>, buffer: &mut [f64]) -> Answer<f64> {
    match name {
        Name::Ask => stepped::ask(filter, buffer),
        _ => solo::with_buffer(name, filter, buffer),
    }
}

fn side_reading(name: Name, pair: Pair, side: Side, buffer: &mut [f64]) -> Verdict {
    match name {
        Name::ReadX => pair.read_x(side, buffer),
        Name::ReadP => pair.read_p(side, buffer),
        Name::ReadQ => pair.read_q(side, buffer),
        _ => pair.read_points(side, buffer),
    }
}

fn side_buffer(name: Name, pair: Pair, side: Side, buffer: &mut [f64]) -> PairAnswer {
    match name {
        Name::OpenPrediction => pair.open_prediction(side, buffer),
        Name::OpenCorrection => pair.open_correction(side, buffer),
        Name::Ask => pair.ask(side, buffer),
        _ => read(pair, side_reading(name, pair, side, buffer)),
    }
}

// The closes of a correction; a stepped one has no observed points.
fn own_close(
    name: Name,
    filter: Filter<f64>,
    m: usize,
    z: &[f64],
    r: &[f64],
    kinds: [Kind<f64>; 4],
    observed: &[f64],
) -> Answer<f64> {
    match name {
        Name::CloseCorrectionStepped => stepped::close_correction(filter, m, z, r, kinds),
        Name::CloseCorrectionFlatStepped => stepped::close_correction_flat(filter, m, z, r),
        _ => solo::with_measurement(name, filter, m, z, r, kinds, observed),
    }
}

fn side_close(
    name: Name,
    pair: Pair,
    side: Side,
    m: usize,
    z: &[f64],
    r: &[f64],
    kinds: [Kind<f64>; 4],
    observed: &[f64],
) -> PairAnswer {
    match name {
        Name::CloseCorrection => pair.close_correction(side, m, z, r, kinds, observed),
        Name::CloseCorrectionStepped => pair.close_correction_stepped(side, m, z, r, kinds),
        Name::CloseCorrectionFlatStepped => pair.close_correction_flat_stepped(side, m, z, r),
        _ => pair.close_correction_flat(side, m, z, r, observed),
    }
}

// The filter, or a side with the sheet.
pub fn shown(held: Held) -> Filter<f64> {
    let sheet = held.pair.sheet;
    match held.whose {
        Whose::Alone => held.filter,
        Whose::On(Side::First) => Filter {
            sheet,
            track: held.pair.first,
        },
        Whose::On(Side::Second) => Filter {
            sheet,
            track: held.pair.second,
        },
    }
}

impl Subject for Held {
    type Float = f64;

    fn renewed(self, n: usize, x: &[f64], p: &[f64], q: &[f64], params: Params<f64>) -> Done<Held> {
        alone(self, Filter::new(n, x, p, q, params))
    }

    fn with_list(self, name: Name, list: &[f64]) -> Done<Held> {
        match self.whose {
            Whose::Alone => alone(self, own_list(name, self.filter, list)),
            Whose::On(side) => paired(self, side_list(name, self.pair, side, list)),
        }
    }

    fn with_buffer(self, name: Name, buffer: &mut [f64]) -> Done<Held> {
        match self.whose {
            Whose::Alone => alone(self, own_buffer(name, self.filter, buffer)),
            Whose::On(side) => paired(self, side_buffer(name, self.pair, side, buffer)),
        }
    }

    fn with_measurement(
        self,
        name: Name,
        m: usize,
        z: &[f64],
        r: &[f64],
        kinds: &[Kind<f64>; 4],
        observed: &[f64],
    ) -> Done<Held> {
        match self.whose {
            Whose::Alone => alone(
                self,
                own_close(name, self.filter, m, z, r, *kinds, observed),
            ),
            Whose::On(side) => paired(
                self,
                side_close(name, self.pair, side, m, z, r, *kinds, observed),
            ),
        }
    }

    fn set_params(self, params: Params<f64>) -> Done<Held> {
        match self.whose {
            Whose::Alone => alone(self, self.filter.set_params(params)),
            Whose::On(_) => paired(self, self.pair.set_params(params)),
        }
    }

    fn set_kind(self, i: usize, kind: Kind<f64>) -> Done<Held> {
        match self.whose {
            Whose::Alone => alone(self, self.filter.set_kind(i, kind)),
            Whose::On(_) => paired(self, self.pair.set_kind(i, kind)),
        }
    }

    fn abandon(self) -> Done<Held> {
        match self.whose {
            Whose::Alone => alone(self, self.filter.abandon()),
            Whose::On(side) => paired(self, self.pair.abandon(side)),
        }
    }

    fn read_params(self) -> ParamsRead<f64> {
        match self.whose {
            Whose::Alone => self.filter.read_params(),
            Whose::On(side) => self.pair.read_params(side),
        }
    }

    fn read_stale(self) -> StaleRead {
        match self.whose {
            Whose::Alone => self.filter.read_stale(),
            Whose::On(side) => self.pair.read_stale(side),
        }
    }

    fn put_moments(self, out: &mut [u8], used: usize) -> usize {
        answers::put_moments(out, used, shown(self))
    }

    fn put_all(self, out: &mut [u8], used: usize) -> usize {
        let filter = shown(self);
        let at = answers::put_filter(out, used, filter);
        answers::put_kept(out, at, filter)
    }
}

// The stepped calls that are lent nothing.
fn own_stepped(name: Name, filter: Filter<f64>) -> Answer<f64> {
    match name {
        Name::OpenPredictionStepped => stepped::open_prediction(filter),
        Name::OpenCorrectionStepped => stepped::open_correction(filter),
        _ => stepped::close_prediction(filter),
    }
}

fn side_stepped(name: Name, pair: Pair, side: Side) -> PairAnswer {
    match name {
        Name::OpenPredictionStepped => pair.open_prediction_stepped(side),
        Name::OpenCorrectionStepped => pair.open_correction_stepped(side),
        _ => pair.close_prediction_stepped(side),
    }
}

pub fn with_nothing(name: Name, held: Held) -> Done<Held> {
    match held.whose {
        Whose::Alone => alone(held, own_stepped(name, held.filter)),
        Whose::On(side) => paired(held, side_stepped(name, held.pair, side)),
    }
}

pub fn image_correction(held: Held, m: usize, image: &[f64]) -> Done<Held> {
    match held.whose {
        Whose::Alone => alone(held, stepped::image_correction(held.filter, m, image)),
        Whose::On(side) => paired(held, held.pair.image_correction(side, m, image)),
    }
}

// The record of the filter or of a side.
pub fn save(held: Held, out: &mut [u8]) -> Verdict {
    match held.whose {
        Whose::Alone => records::save(held.filter, out),
        Whose::On(side) => held.pair.save(side, out),
    }
}
