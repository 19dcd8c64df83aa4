// The lines of a script that are calls: how each is read, what it does, and its answer. They are on the f64 filter or on the pair, or, on a line that begins with `@w`, on an f32 filter.
#![tactic(auto)]

use crate::answers::Turn;
use crate::held::{Held, Whose};
use crate::subject::Buffers;
use angles::Kind;
use filter::{Filter, new};
use floats::Number;
use pairs::Pair;
use script::Name;

pub mod answers;
mod calls;
pub mod held;
mod saved;
mod solo;
pub mod subject;
mod tokens;
mod wide;

// The filter that New gives where it refuses.
fn empty<T: Number>() -> Filter<T> {
    let sheet = new::empty_sheet();
    let track = new::empty_track();
    Filter { sheet, track }
}

fn no_buffers<T: Number>() -> Buffers<T> {
    let none = [T::ZERO; 512];
    Buffers {
        first: none,
        second: none,
        third: none,
        kinds: [Kind::Plain; 4],
    }
}

// Before the first `new` or `load` stands the empty filter, and before the first `newpair` the empty pair.
pub fn start() -> Held {
    let none = [0.0; 1];
    let b = Pair::new(0, &none, &none, &none, &none, &none, new::empty_params());
    Held {
        filter: empty(),
        pair: b.pair,
        whose: Whose::Alone,
    }
}

// Before the first `@w new` stands the empty f32 filter.
pub fn start_narrow() -> Filter<f32> {
    empty()
}

// The answer to the call of that name, with its tokens from place at on: what is held then, and how many bytes of answers wait.
pub fn answer(
    held: Held,
    name: Name,
    s: &[u8],
    at: usize,
    out: &mut [u8],
    used: usize,
) -> Turn<Held> {
    let mut buffers = no_buffers();
    wide::code(name, held, s, at, &mut buffers, out, used)
}

// The answer on an f32 filter to the call whose name is the next token at place at or after it.
pub fn answer_narrow(
    held: Filter<f32>,
    s: &[u8],
    at: usize,
    out: &mut [u8],
    used: usize,
) -> Turn<Filter<f32>> {
    let named = script::call_at(s, at);
    let mut buffers = no_buffers();
    calls::code(named.name, held, s, named.next, &mut buffers, out, used)
}
