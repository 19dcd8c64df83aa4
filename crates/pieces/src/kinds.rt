// Residual kinds as bytes, nine each.
ghost use Rattle.std.specs.Prelude.{◌≡◌, ◌+◌, ◌*◌, ◌≤◌, length, take, drop, replicate};
ghost use Rattle.std.proofs.lemmas.List.Edits.{sets};
ghost use Rattle.floats.specs.Fronts.{over};
ghost use Rattle.angles.specs.Kinds.{plain};
ghost use Rattle.pieces.specs.Bytes.{written, read_each, all_true, kind_bytes, kind_at, formed};

use crate::word;
use angles::Kind;

// The kind k from place at of out on; the rest of out stays.
pub fn put_kind(k: Kind<f64>, out: &mut [u8], at: usize)
    requires { at + 9 ≤ length out.old }
    ensures { out.new ≡ sets out.old at (kind_bytes k) }
{
    match k {
        Kind::Plain => {
            out[at] = 0;
            word::put_word(out, at + 1, 0);
        }
        Kind::Turn(h) => {
            out[at] = 1;
            word::put_word(out, at + 1, words::bits_of(h));
        }
    }
}

// The first n kinds from place at of out on; the rest of out stays.
pub fn put_kinds(kinds: [Kind<f64>; 8], n: usize, out: &mut [u8], at: usize)
    requires { (n ≤ 8) × (at + 9 * n ≤ length out.old) }
    ensures { out.new ≡ sets out.old at (written kind_bytes (take n kinds)) }
{
    for (i, k) in kinds[..n].iter().enumerate() {
        put_kind(*k, out, at + 9 * i);
    }
}

// The kind at place at of s.
pub fn kind_at(s: &[u8], at: usize) -> Kind<f64>
    requires { at + 9 ≤ length s.now }
    ensures { result ≡ kind_at (drop at s.now) }
{
    if s[at] == 0 {
        Kind::Plain
    } else {
        Kind::Turn(words::float_of(word::word_at(s, at + 1)))
    }
}

// Whether there is a kind at place at of s.
pub fn is_formed(s: &[u8], at: usize) -> bool
    requires { at + 9 ≤ length s.now }
    ensures { result ≡ formed (drop at s.now) }
{
    if s[at] == 0 {
        word::word_at(s, at + 1) == 0
    } else {
        s[at] == 1
    }
}

// The n kinds from place at of s on, then plain ones.
pub fn kinds_at(s: &[u8], at: usize, n: usize) -> [Kind<f64>; 8]
    requires { (n ≤ 8) × (at + 9 * n ≤ length s.now) }
    ensures { result ≡ over (read_each 9 kind_at n (drop at s.now)) (replicate 8 plain) }
{
    let mut kinds = [Kind::Plain; 8];
    for (i, k) in kinds[..n].iter_mut().enumerate() {
        *k = kind_at(s, at + 9 * i);
    }
    kinds
}

// Whether there are n kinds from place at of s on.
pub fn all_formed(s: &[u8], at: usize, n: usize) -> bool
    requires { at + 9 * n ≤ length s.now }
    ensures { result ≡ all_true (read_each 9 formed n (drop at s.now)) }
{
    (0..n).all(|i| is_formed(s, at + 9 * i))
}
