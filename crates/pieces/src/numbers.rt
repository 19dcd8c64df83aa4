// Numbers as bytes, eight each.
ghost use Rattle.std.specs.Prelude.{◌≡◌, ◌+◌, ◌*◌, ◌≤◌, length, take, drop};
ghost use Rattle.std.proofs.lemmas.List.Edits.{sets};
ghost use Rattle.floats.specs.Numbers.{zeros};
ghost use Rattle.floats.specs.Fronts.{over};
ghost use Rattle.pieces.specs.Bytes.{written, read_each, number_bytes, number_at};

use crate::word;

// The first k numbers of l from place at of out on; the rest of out stays.
pub fn put_numbers(l: &[f64], k: usize, out: &mut [u8], at: usize)
    requires { (k ≤ length l.now) × (at + 8 * k ≤ length out.old) }
    ensures { out.new ≡ sets out.old at (written number_bytes (take k l.now)) }
{
    for (i, v) in l[..k].iter().enumerate() {
        word::put_word(out, at + 8 * i, words::bits_of(*v));
    }
}

// The number at place at of s.
pub fn number_at(s: &[u8], at: usize) -> f64
    requires { at + 8 ≤ length s.now }
    ensures { result ≡ number_at (drop at s.now) }
{
    words::float_of(word::word_at(s, at))
}

// The k numbers from place at of s on to the front of out; the rest of out stays.
fn numbers_at(s: &[u8], at: usize, k: usize, out: &mut [f64])
    requires { (at + 8 * k ≤ length s.now) × (k ≤ length out.old) }
    ensures { out.new ≡ over (read_each 8 number_at k (drop at s.now)) out.old }
{
    for (i, v) in out[..k].iter_mut().enumerate() {
        *v = number_at(s, at + 8 * i);
    }
}

// The k numbers from place at of s on, then +0: of a vector and of a matrix.
pub fn vector_at(s: &[u8], at: usize, k: usize) -> [f64; 8]
    requires { (at + 8 * k ≤ length s.now) × (k ≤ 8) }
    ensures { result ≡ over (read_each 8 number_at k (drop at s.now)) (zeros 8) }
{
    let mut d = [0.0; 8];
    numbers_at(s, at, k, &mut d);
    d
}

pub fn matrix_at(s: &[u8], at: usize, k: usize) -> [f64; 64]
    requires { (at + 8 * k ≤ length s.now) × (k ≤ 64) }
    ensures { result ≡ over (read_each 8 number_at k (drop at s.now)) (zeros 64) }
{
    let mut d = [0.0; 64];
    numbers_at(s, at, k, &mut d);
    d
}
