// Sizes, numbers, lists and kinds, each read from the next tokens of a line: what was read and the place after it, where it is there.
ghost use Rattle.std.specs.Prelude.{◌≡◌, ℕ, ◌<◌, length, take, get_or, Option};
ghost use Rattle.std.specs.Float.{nan};
ghost use Rattle.angles.specs.declared.Kind.{Kind};
ghost use Rattle.script.specs.declared.text.Read.{Read};
ghost use Rattle.script.specs.Numbers.{size_of, number_of, list_of, kind_of, mark_of};

use crate::marks::Marks;
use crate::text::{Read, part, same_bytes, token_at};
use crate::write::less;
use angles::Kind;
use std::array;
use words::Worded;

// A decimal below 2^64.
pub fn size_at(s: &[u8], at: usize) -> Option<Read<u64>>
    ensures { result ≡ size_of s.now at }
{
    let t = token_at(s, at);
    if t.end <= t.start {
        return None;
    }
    let mut value = 0u64;
    for k in t.start..t.end {
        let d = words::digit(s[k])?;
        if 10 <= d {
            return None;
        }
        value = value.checked_mul(10)?.checked_add(d)?;
    }
    Some(Read { value, next: t.end })
}

// A token of as many hex digits as a word has, the bits of a float.
pub fn number_at<T: Worded>(s: &[u8], at: usize) -> Option<Read<T>>
    ensures { T.seen (λ A. Option (Read A)) result ≡ number_of T.format s.now at }
{
    let t = token_at(s, at);
    let digits = less(t.end, t.start);
    if digits != T::DIGITS {
        return None;
    }
    let bits = words::word_at::<T>(s, t.start)?;
    Some(Read {
        value: words::float_of(bits),
        next: t.end,
    })
}

// A size of at most 512, then that many numbers, put one after another at the front of out: how many, and the place after them.
pub fn list_at<T: Worded>(s: &[u8], at: usize, out: &mut [T; 512]) -> Option<Read<usize>>
    ensures value { result ≡ (list_of T.format s.now at (T.floats out.old)).read }
    ensures out_after { T.floats out.new ≡ (list_of T.format s.now at (T.floats out.old)).numbers }
{
    let size = size_at(s, at)?;
    if 512 < size.value {
        return None;
    }
    let len = size.value as usize;
    let mut next = size.next;
    for i in 0..len {
        let number = number_at(s, next)?;
        out[i] = number.value;
        next = number.next;
    }
    Some(Read { value: len, next })
}

// The numbers of a list that was read.
pub fn front<T>(list: &[T; 512], len: usize) -> &[T]
    ensures { result.now ≡ take len list.now }
{
    &list[..len.min(list.len())]
}

// Mark number i of a buffer.
fn mark<T: Marks>(i: usize) -> T
    requires { i < 512 }
    ensures { T.float result ≡ mark_of T.format i }
{
    words::float_of(T::MARK_BITS + i as u64)
}

// A buffer in which what was not written can be seen: place i holds 2^23 + i at f32, and 2^52 + i at f64.
pub fn marked<T: Marks>() -> [T; 512]
    ensures value { 512 ≡ length result }
    ensures by_index { (i : ℕ) → i < 512 → get_or (T.floats result) i nan ≡ mark_of T.format i }
{
    array::from_fn(|i| mark(i))
}

// The letter p, or the letter t and then a half-turn.
pub fn kind_at<T: Worded>(s: &[u8], at: usize) -> Option<Read<Kind<T>>>
    ensures { T.seen (λ A. Option (Read (Kind A))) result ≡ kind_of T.format s.now at }
{
    let t = token_at(s, at);
    let letters = part(s, t);
    if same_bytes(letters, b"p") {
        let value = Kind::Plain;
        return Some(Read { value, next: t.end });
    }
    if !same_bytes(letters, b"t") {
        return None;
    }
    let half_turn = number_at(s, t.end)?;
    let value = Kind::Turn(half_turn.value);
    Some(Read {
        value,
        next: half_turn.next,
    })
}
