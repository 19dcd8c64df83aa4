// Floats as the programs read and write them: the bits in hex digits, 16 of an f64 and 8 of an f32. Any NaN pattern stands for NaN, and a NaN is written by one: 7ff8000000000000 or 7fc00000.
#![tactic(auto)]

ghost use Rattle.std.specs.Prelude.{◌≡◌, ◌^◌, ◌<◌};
ghost use Rattle.std.specs.Float.Ieee.{of_bits, to_bits};
ghost use Rattle.words.specs.Words.{digit_in, width, word_of};

mod worded;

pub use worded::Worded;

// The number with these bits.
pub fn float_of<T: Worded>(b: u64) -> T
    ensures { T.float result ≡ of_bits T.format b }
{
    T::from_word(b)
}

// The bits of a number: no more than the digits of a word hold.
pub fn bits_of<T: Worded>(x: T) -> u64
    ensures value { result ≡ to_bits T.format (T.float x) }
    ensures short { result < 16 ^ width T.format }
{
    x.held();
    x.to_word()
}

// The value of a hex digit of either case.
#[tactic(auto, unfolding(crate::specs::Words::digit_of))]
pub fn digit(c: u8) -> Option<u64>
    ensures { result ≡ digit_in c }
{
    match c {
        b'0'..=b'9' => Some(u64::from(c - b'0')),
        b'a'..=b'f' => Some(u64::from(c - b'a') + 10),
        b'A'..=b'F' => Some(u64::from(c - b'A') + 10),
        _ => None,
    }
}

// The word that starts at place at of s: as many digits as the format takes.
pub fn word_at<T: Worded>(s: &[u8], at: usize) -> Option<u64>
    ensures { result ≡ word_of T.format s.now at }
{
    let digits = s.get(at..)?.get(..T::DIGITS)?;
    let mut v = 0u64;
    for c in digits {
        v = v * 16 + digit(*c)?;
    }
    Some(v)
}
