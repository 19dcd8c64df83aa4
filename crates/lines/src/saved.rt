// save and load: the record of the filter or of a side as lent bytes, and the filter of a record.
use crate::answers::Turn;
use crate::held::Held;
use crate::{answers, held, tokens};

// save BUF
pub fn save(held: Held, s: &[u8], at: usize, out: &mut [u8], used: usize) -> Turn<Held> {
    let Some(value) = tokens::last_size(s, at) else {
        return answers::bad(held, out, used);
    };
    if 4096 < value {
        return answers::bad(held, out, used);
    }
    let len = value as usize;
    let mut buffer = script::marked_bytes();
    let refusal = held::save(held, &mut buffer[..len]);
    let used = answers::bytes(refusal, script::first(&buffer, len), out, used);
    Turn { held, used }
}

// Bytes with which the line ends: how many.
fn last_bytes(s: &[u8], at: usize, record: &mut [u8; 4096]) -> Option<usize> {
    tokens::last(s, script::bytes_at(s, at, record)?)
}

// load BYTES
pub fn load(held: Held, s: &[u8], at: usize, out: &mut [u8], used: usize) -> Turn<Held> {
    let mut record = [0u8; 4096];
    let Some(len) = last_bytes(s, at, &mut record) else {
        return answers::bad(held, out, used);
    };
    let made = held::alone(held, records::load(script::first(&record, len)));
    answers::number(made, out, used)
}
