// The calls that the f64 filter and the pair alone have: a pair's new, the flat close, the stepped calls, the record. The rest are those of any filter.
use crate::answers::Turn;
use crate::held::{Held, Whose};
use crate::subject::Buffers;
use crate::{answers, calls, held, saved, tokens};
use pairs::{Pair, Side};
use script::Name;
use sigma::Params;

// What newpair reads: n, how many numbers of each list there are, and the parameters.
#[derive(Clone, Copy)]
struct PairLists {
    n: usize,
    x1: usize,
    p1: usize,
    x2: usize,
    p2: usize,
    q: usize,
    params: Params<f64>,
}

fn pair_at(
    s: &[u8],
    at: usize,
    x1: &mut [f64; 512],
    p1: &mut [f64; 512],
    x2: &mut [f64; 512],
    p2: &mut [f64; 512],
    q: &mut [f64; 512],
) -> Option<PairLists> {
    let n = script::size_at(s, at)?;
    let first = tokens::two_lists_at(s, n.next, x1, p1)?;
    let second = tokens::two_lists_at(s, first.next, x2, p2)?;
    let (q, params) = tokens::sheet_at(s, second.next, q)?;
    Some(PairLists {
        n: n.value as usize,
        x1: first.value.0,
        p1: first.value.1,
        x2: second.value.0,
        p2: second.value.1,
        q,
        params,
    })
}

// newpair n LIST(x1) LIST(P1) LIST(x2) LIST(P2) LIST(Q) alpha beta kappa
fn new_pair(held: Held, s: &[u8], at: usize, out: &mut [u8], used: usize) -> Turn<Held> {
    let mut x1 = [0.0; 512];
    let mut p1 = [0.0; 512];
    let mut x2 = [0.0; 512];
    let mut p2 = [0.0; 512];
    let mut q = [0.0; 512];
    let Some(read) = pair_at(s, at, &mut x1, &mut p1, &mut x2, &mut p2, &mut q) else {
        return answers::bad(held, out, used);
    };
    let x1 = script::front(&x1, read.x1);
    let p1 = script::front(&p1, read.p1);
    let x2 = script::front(&x2, read.x2);
    let p2 = script::front(&p2, read.p2);
    let q = script::front(&q, read.q);
    let params = read.params;
    let made = held::paired(held, Pair::new(read.n, x1, p1, x2, p2, q, params));
    answers::number(made, out, used)
}

// imagec m LIST
fn image_correction(held: Held, s: &[u8], at: usize, out: &mut [u8], used: usize) -> Turn<Held> {
    let mut list = [0.0; 512];
    let Some(m) = script::size_at(s, at) else {
        return answers::bad(held, out, used);
    };
    let Some(len) = tokens::last_list(s, m.next, &mut list) else {
        return answers::bad(held, out, used);
    };
    let list = script::front(&list, len);
    let done = held::image_correction(held, m.value as usize, list);
    answers::number(done, out, used)
}

// sopenp, sopenc, sclosep: nothing follows the name.
fn lone(name: Name, held: Held, s: &[u8], at: usize, out: &mut [u8], used: usize) -> Turn<Held> {
    if !script::no_token(s, at) {
        return answers::bad(held, out, used);
    }
    let done = held::with_nothing(name, held);
    match name {
        Name::ClosePredictionStepped => answers::close(done, out, used),
        _ => answers::number(done, out, used),
    }
}

// A call on the filter or on a side of the pair: the same lines.
fn call(
    name: Name,
    held: Held,
    s: &[u8],
    at: usize,
    buffers: &mut Buffers<f64>,
    out: &mut [u8],
    used: usize,
) -> Turn<Held> {
    match name {
        Name::OpenPredictionStepped | Name::OpenCorrectionStepped | Name::ClosePredictionStepped =>
            lone(name, held, s, at, out, used),
        Name::Ask => calls::lend(name, held, s, at, buffers, out, used),
        Name::ImagePrediction => calls::set(name, held, s, at, buffers, out, used),
        Name::ImageCorrection => image_correction(held, s, at, out, used),
        Name::CloseCorrectionFlat
        | Name::CloseCorrectionStepped
        | Name::CloseCorrectionFlatStepped => {
            calls::close_correction(name, held, s, at, buffers, out, used)
        }
        Name::Save => saved::save(held, s, at, out, used),
        _ => calls::call(name, held, s, at, buffers, out, used),
    }
}

// @1 CALL, @2 CALL
fn on_side(
    held: Held,
    side: Side,
    s: &[u8],
    at: usize,
    buffers: &mut Buffers<f64>,
    out: &mut [u8],
    used: usize,
) -> Turn<Held> {
    let named = script::call_at(s, at);
    let held = held::turned(held, Whose::On(side));
    call(named.name, held, s, named.next, buffers, out, used)
}

// A call on the filter or on the pair. Each line is the filter's unless it names another.
pub fn code(
    name: Name,
    held: Held,
    s: &[u8],
    at: usize,
    buffers: &mut Buffers<f64>,
    out: &mut [u8],
    used: usize,
) -> Turn<Held> {
    let held = held::turned(held, Whose::Alone);
    match name {
        Name::NewPair => new_pair(held, s, at, out, used),
        Name::First => on_side(held, Side::First, s, at, buffers, out, used),
        Name::Second => on_side(held, Side::Second, s, at, buffers, out, used),
        Name::Load => saved::load(held, s, at, out, used),
        Name::New | Name::Point | Name::Wrap | Name::Root => {
            calls::code(name, held, s, at, buffers, out, used)
        }
        _ => call(name, held, s, at, buffers, out, used),
    }
}
