// A word of eight bytes, lowest first.
ghost use Rattle.std.specs.Prelude.{◌≡◌, ◌+◌, ◌≤◌, length, drop};
ghost use Rattle.std.proofs.lemmas.List.Edits.{sets};
ghost use Rattle.pieces.specs.Bytes.{little_endian, word_of};

// The word that starts at place at of s.
pub fn word_at(s: &[u8], at: usize) -> u64
    requires { at + 8 ≤ length s.now }
    ensures { result ≡ word_of 8 (drop at s.now) }
{
    let mut bytes = [0; 8];
    bytes.copy_from_slice(&s[at..at + 8]);
    u64::from_le_bytes(bytes)
}

// The word v from place at of out on; the rest of out stays.
pub fn put_word(out: &mut [u8], at: usize, v: u64)
    requires { at + 8 ≤ length out.old }
    ensures { out.new ≡ sets out.old at (little_endian 8 v) }
{
    out[at..at + 8].copy_from_slice(&v.to_le_bytes());
}
