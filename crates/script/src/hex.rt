// Bytes, as a record is written in a script: two hex digits each, and a lone `-` where there are none.
ghost use Rattle.std.specs.Prelude.{◌≡◌, ℕ, ◌+◌, ◌<◌, length, get_or};
ghost use Rattle.script.specs.Page.{page};
ghost use Rattle.script.specs.Hex.{byte_of, pairs_in, bytes_of, byte_mark, put_byte, put_each, put_bytes};

use crate::text::{Read, part, same_bytes, token_at};
use crate::write::{less, put};
use std::array;

// The byte of the two digits at place at and after it.
fn byte_at(s: &[u8], at: usize) -> Option<u8>
    requires { at + 1 < length s.now }
    ensures { result ≡ byte_of s.now at }
{
    let high = words::digit(s[at])?;
    let low = words::digit(s[at + 1])?;
    Some((high * 16 + low) as u8)
}

// How many bytes so many digits are: one or more, at most 4096, and no half byte.
fn pairs(digits: usize) -> Option<usize>
    ensures { result ≡ pairs_in digits }
{
    if 0 < digits && digits <= 8192 && digits % 2 == 0 {
        Some(digits / 2)
    } else {
        None
    }
}

// At most 4096 bytes, put at the front of out: how many, and the place after them.
pub fn bytes_at(s: &[u8], at: usize, out: &mut [u8; 4096]) -> Option<Read<usize>>
    ensures value { result ≡ (bytes_of s.now at out.old).read }
    ensures out_after { out.new ≡ (bytes_of s.now at out.old).bytes }
{
    let t = token_at(s, at);
    if same_bytes(part(s, t), b"-") {
        return Some(Read {
            value: 0,
            next: t.end,
        });
    }
    let len = pairs(less(t.end, t.start))?;
    for i in 0..len {
        out[i] = byte_at(s, t.start + 2 * i)?;
    }
    Some(Read {
        value: len,
        next: t.end,
    })
}

// Bytes in which what was not written can be seen: place i holds a0 + i, without its carry.
pub fn marked_bytes() -> [u8; 4096]
    ensures value { 4096 ≡ length result }
    ensures by_index { (i : ℕ) → i < 4096 → get_or result i 0 ≡ byte_mark i }
{
    array::from_fn(|i| ((0xa0 + i) % 0x100) as u8)
}

// The two digits of a byte.
fn put_byte(out: &mut [u8], at: usize, b: u8) -> usize
    ensures value { result ≡ (put_byte b (page out.old at)).used }
    ensures out_after { out.new ≡ (put_byte b (page out.old at)).bytes }
{
    let mut text = [0u8; 16];
    let k = io::hex(u64::from(b), 2, &mut text);
    put(out, at, &text[..k])
}

// The bytes, one after another.
fn put_each(out: &mut [u8], at: usize, s: &[u8]) -> usize
    ensures value { result ≡ (put_each s.now (page out.old at)).used }
    ensures out_after { out.new ≡ (put_each s.now (page out.old at)).bytes }
{
    let mut next = at;
    for b in s {
        next = put_byte(out, next, *b);
    }
    next
}

// A blank and the bytes.
pub fn put_bytes(out: &mut [u8], at: usize, s: &[u8]) -> usize
    ensures value { result ≡ (put_bytes s.now (page out.old at)).used }
    ensures out_after { out.new ≡ (put_bytes s.now (page out.old at)).bytes }
{
    if s.is_empty() {
        return put(out, at, b" -");
    }
    let next = put(out, at, b" ");
    put_each(out, next, s)
}
