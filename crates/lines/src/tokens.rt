// What the calls read from a line, from the tokens after the name: there where the line gives it, and of a last one where the line ends with it.
use angles::Kind;
use script::{Name, Read};
use sigma::Params;
use words::Worded;

// What was read, where the line ends with it.
pub fn last<A: Copy>(s: &[u8], read: Read<A>) -> Option<A> {
    if script::no_token(s, read.next) {
        Some(read.value)
    } else {
        None
    }
}

// A size, a number, a kind, a list with which the line ends.
pub fn last_size(s: &[u8], at: usize) -> Option<u64> {
    last(s, script::size_at(s, at)?)
}

pub fn last_number<T: Worded>(s: &[u8], at: usize) -> Option<T> {
    last(s, script::number_at(s, at)?)
}

pub fn last_kind<T: Worded>(s: &[u8], at: usize) -> Option<Kind<T>> {
    last(s, script::kind_at(s, at)?)
}

pub fn last_list<T: Worded>(s: &[u8], at: usize, list: &mut [T; 512]) -> Option<usize> {
    last(s, script::list_at(s, at, list)?)
}

// Three parameters.
fn params_at<T: Worded>(s: &[u8], at: usize) -> Option<Read<Params<T>>> {
    let alpha = script::number_at(s, at)?;
    let beta = script::number_at(s, alpha.next)?;
    let kappa = script::number_at(s, beta.next)?;
    Some(Read {
        value: Params {
            alpha: alpha.value,
            beta: beta.value,
            kappa: kappa.value,
        },
        next: kappa.next,
    })
}

pub fn last_params<T: Worded>(s: &[u8], at: usize) -> Option<Params<T>> {
    last(s, params_at(s, at)?)
}

// Two lists: how many numbers each has.
pub fn two_lists_at<T: Worded>(
    s: &[u8],
    at: usize,
    a: &mut [T; 512],
    b: &mut [T; 512],
) -> Option<Read<(usize, usize)>> {
    let first = script::list_at(s, at, a)?;
    let second = script::list_at(s, first.next, b)?;
    Some(Read {
        value: (first.value, second.value),
        next: second.next,
    })
}

// The end of a new, LIST(Q) alpha beta kappa.
pub fn sheet_at<T: Worded>(s: &[u8], at: usize, q: &mut [T; 512]) -> Option<(usize, Params<T>)> {
    let of_q = script::list_at(s, at, q)?;
    let params = last_params(s, of_q.next)?;
    Some((of_q.value, params))
}

// Four kinds: the place after them.
fn kinds_at<T: Worded>(s: &[u8], at: usize, kinds: &mut [Kind<T>; 4]) -> Option<usize> {
    let mut next = at;
    for kind in kinds.iter_mut() {
        let read = script::kind_at(s, next)?;
        *kind = read.value;
        next = read.next;
    }
    Some(next)
}

// The kinds of a close: a flat one has none.
fn kinds_of<T: Worded>(name: Name, s: &[u8], at: usize, kinds: &mut [Kind<T>; 4]) -> Option<usize> {
    match name {
        Name::CloseCorrection | Name::CloseCorrectionStepped => kinds_at(s, at, kinds),
        _ => Some(at),
    }
}

// The observed points of a close: a stepped one has none.
fn observed_of<T: Worded>(
    name: Name,
    s: &[u8],
    at: usize,
    list: &mut [T; 512],
) -> Option<Read<usize>> {
    match name {
        Name::CloseCorrection | Name::CloseCorrectionFlat => script::list_at(s, at, list),
        _ => Some(Read { value: 0, next: at }),
    }
}

// What a close reads after R: its kinds and its observed points; how many numbers of those there are.
pub fn closing_at<T: Worded>(
    name: Name,
    s: &[u8],
    at: usize,
    kinds: &mut [Kind<T>; 4],
    list: &mut [T; 512],
) -> Option<usize> {
    let next = kinds_of(name, s, at, kinds)?;
    last(s, observed_of(name, s, next, list)?)
}
