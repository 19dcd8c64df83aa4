// The calls that any filter has, at either width: each is read whole from its line, tokens after the name, then run; a line that is no call in this form is answered `bad` and changes nothing.
use crate::answers::Turn;
use crate::subject::{Buffers, Done, Subject};
use crate::{answers, tokens};
use filter::point::{self, Spaced};
use script::Name;
use words::Worded;

// new n LIST(x) LIST(P) LIST(Q) alpha beta kappa
fn new<S: Subject>(
    held: S,
    s: &[u8],
    at: usize,
    buffers: &mut Buffers<S::Float>,
    out: &mut [u8],
    used: usize,
) -> Turn<S> {
    let Some(n) = script::size_at(s, at) else {
        return answers::bad(held, out, used);
    };
    let Some(two) = tokens::two_lists_at(s, n.next, &mut buffers.first, &mut buffers.second) else {
        return answers::bad(held, out, used);
    };
    let Some((of_q, params)) = tokens::sheet_at(s, two.next, &mut buffers.third) else {
        return answers::bad(held, out, used);
    };
    let (of_x, of_p) = two.value;
    let x = script::front(&buffers.first, of_x);
    let p = script::front(&buffers.second, of_p);
    let q = script::front(&buffers.third, of_q);
    answers::number(held.renewed(n.value as usize, x, p, q, params), out, used)
}

// setx LIST, setp LIST, setq LIST, imagep LIST
pub fn set<S: Subject>(
    name: Name,
    held: S,
    s: &[u8],
    at: usize,
    buffers: &mut Buffers<S::Float>,
    out: &mut [u8],
    used: usize,
) -> Turn<S> {
    let Some(len) = tokens::last_list(s, at, &mut buffers.first) else {
        return answers::bad(held, out, used);
    };
    let done = held.with_list(name, script::front(&buffers.first, len));
    answers::number(done, out, used)
}

// closep LIST
fn close_prediction<S: Subject>(
    held: S,
    s: &[u8],
    at: usize,
    buffers: &mut Buffers<S::Float>,
    out: &mut [u8],
    used: usize,
) -> Turn<S> {
    let Some(len) = tokens::last_list(s, at, &mut buffers.first) else {
        return answers::bad(held, out, used);
    };
    let done = held.with_list(Name::ClosePrediction, script::front(&buffers.first, len));
    answers::close(done, out, used)
}

// setpar F F F
fn set_params<S: Subject>(held: S, s: &[u8], at: usize, out: &mut [u8], used: usize) -> Turn<S> {
    let Some(params) = tokens::last_params(s, at) else {
        return answers::bad(held, out, used);
    };
    answers::number(held.set_params(params), out, used)
}

// setkind i KIND
fn set_kind<S: Subject>(held: S, s: &[u8], at: usize, out: &mut [u8], used: usize) -> Turn<S> {
    let Some(i) = script::size_at(s, at) else {
        return answers::bad(held, out, used);
    };
    let Some(kind) = tokens::last_kind(s, i.next) else {
        return answers::bad(held, out, used);
    };
    answers::number(held.set_kind(i.value as usize, kind), out, used)
}

// openp BUF, openc BUF, readx BUF, readp BUF, readq BUF, readpts BUF, ask BUF
pub fn lend<S: Subject>(
    name: Name,
    held: S,
    s: &[u8],
    at: usize,
    buffers: &mut Buffers<S::Float>,
    out: &mut [u8],
    used: usize,
) -> Turn<S> {
    let Some(value) = tokens::last_size(s, at) else {
        return answers::bad(held, out, used);
    };
    if 512 < value {
        return answers::bad(held, out, used);
    }
    let len = value as usize;
    buffers.first = script::marked();
    let done = held.with_buffer(name, &mut buffers.first[..len]);
    answers::buffer(done, script::front(&buffers.first, len), out, used)
}

// closec m LIST(z) LIST(R) KIND KIND KIND KIND LIST(observed), closef m LIST(z) LIST(R) LIST(observed), and sclosec, sclosef without the observed points
pub fn close_correction<S: Subject>(
    name: Name,
    held: S,
    s: &[u8],
    at: usize,
    buffers: &mut Buffers<S::Float>,
    out: &mut [u8],
    used: usize,
) -> Turn<S> {
    let Some(m) = script::size_at(s, at) else {
        return answers::bad(held, out, used);
    };
    let Some(two) = tokens::two_lists_at(s, m.next, &mut buffers.first, &mut buffers.second) else {
        return answers::bad(held, out, used);
    };
    let Some(of_observed) = tokens::closing_at(
        name,
        s,
        two.next,
        &mut buffers.kinds,
        &mut buffers.third,
    ) else {
        return answers::bad(held, out, used);
    };
    let (of_z, of_r) = two.value;
    let z = script::front(&buffers.first, of_z);
    let r = script::front(&buffers.second, of_r);
    let observed = script::front(&buffers.third, of_observed);
    let done = held.with_measurement(name, m.value as usize, z, r, &buffers.kinds, observed);
    answers::close(done, out, used)
}

// The numbers start at k * n, where that is accepted.
fn point_of<T: Worded + Spaced>(
    n: usize,
    k: usize,
    list: &[T],
    out: &mut [u8],
    used: usize,
) -> usize {
    let refusal = point::point_refusal(list, n, k);
    let part = point::point(list, n, k);
    if refusal.number != 0 {
        return answers::point(refusal, 0, part, out, used);
    }
    answers::point(refusal, script::times(k, n), part, out, used)
}

// point n k LIST
fn point<S: Subject>(
    held: S,
    s: &[u8],
    at: usize,
    buffers: &mut Buffers<S::Float>,
    out: &mut [u8],
    used: usize,
) -> Turn<S> {
    let Some(n) = script::size_at(s, at) else {
        return answers::bad(held, out, used);
    };
    let Some(k) = script::size_at(s, n.next) else {
        return answers::bad(held, out, used);
    };
    let Some(len) = tokens::last_list(s, k.next, &mut buffers.first) else {
        return answers::bad(held, out, used);
    };
    let list = script::front(&buffers.first, len);
    let used = point_of(n.value as usize, k.value as usize, list, out, used);
    Turn { held, used }
}

// wrap d h; refused, the value shown is +0.
fn wrap<S: Subject>(held: S, s: &[u8], at: usize, out: &mut [u8], used: usize) -> Turn<S> {
    let Some(d) = script::number_at::<S::Float>(s, at) else {
        return answers::bad(held, out, used);
    };
    let Some(h) = tokens::last_number(s, d.next) else {
        return answers::bad(held, out, used);
    };
    let wrapped = angles::wrap(d.value, h);
    let refusal = match wrapped {
        Ok(_) => floats::placeless(0),
        Err(refusal) => refusal.verdict(),
    };
    let used = answers::value(refusal, angles::shown(wrapped), out, used);
    Turn { held, used }
}

// root a; refused, no value is shown.
fn root<S: Subject>(held: S, s: &[u8], at: usize, out: &mut [u8], used: usize) -> Turn<S> {
    let Some(a) = tokens::last_number::<S::Float>(s, at) else {
        return answers::bad(held, out, used);
    };
    match root::square_root(a) {
        Ok(x) => Turn {
            held,
            used: answers::value(floats::placeless(0), x, out, used),
        },
        Err(refusal) => {
            let refusal = refusal.verdict();
            answers::number(Done { held, refusal }, out, used)
        }
    }
}

// abandon, readpar, readstale, dump: nothing follows the name.
fn alone<S: Subject>(
    name: Name,
    held: S,
    s: &[u8],
    at: usize,
    out: &mut [u8],
    used: usize,
) -> Turn<S> {
    if !script::no_token(s, at) {
        return answers::bad(held, out, used);
    }
    match name {
        Name::Abandon => answers::number(held.abandon(), out, used),
        Name::ReadParams => answers::params(held, out, used),
        Name::ReadStale => answers::stale(held, out, used),
        _ => answers::dump(held, out, used),
    }
}

// A call on a filter.
pub fn call<S: Subject>(
    name: Name,
    held: S,
    s: &[u8],
    at: usize,
    buffers: &mut Buffers<S::Float>,
    out: &mut [u8],
    used: usize,
) -> Turn<S> {
    match name {
        Name::SetX | Name::SetP | Name::SetQ => set(name, held, s, at, buffers, out, used),
        Name::SetParams => set_params(held, s, at, out, used),
        Name::SetKind => set_kind(held, s, at, out, used),
        Name::OpenPrediction
        | Name::OpenCorrection
        | Name::ReadX
        | Name::ReadP
        | Name::ReadQ
        | Name::ReadPoints => lend(name, held, s, at, buffers, out, used),
        Name::ClosePrediction => close_prediction(held, s, at, buffers, out, used),
        Name::CloseCorrection => close_correction(name, held, s, at, buffers, out, used),
        Name::Abandon | Name::ReadParams | Name::ReadStale | Name::Dump => {
            alone(name, held, s, at, out, used)
        }
        _ => answers::bad(held, out, used),
    }
}

// A call on a filter, or new, point, wrap or root.
pub fn code<S: Subject>(
    name: Name,
    held: S,
    s: &[u8],
    at: usize,
    buffers: &mut Buffers<S::Float>,
    out: &mut [u8],
    used: usize,
) -> Turn<S> {
    match name {
        Name::New => new(held, s, at, buffers, out, used),
        Name::Point => point(held, s, at, buffers, out, used),
        Name::Wrap => wrap(held, s, at, out, used),
        Name::Root => root(held, s, at, out, used),
        _ => call(name, held, s, at, buffers, out, used),
    }
}
