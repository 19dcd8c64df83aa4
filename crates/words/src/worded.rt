// What reading and writing a number as a word need to know of its format. What is written over it is proved of an f32 and an f64 at once.
ghost use Rattle.std.specs.Prelude.{◌≡◌, ℕ, ◌+◌, ◌*◌, ◌/◌};
ghost use Rattle.std.specs.Float.Ieee.{of_bits, to_bits, hid, ones, top};
ghost use Rattle.std.proofs.Common.{refl};
ghost use Rattle.words.specs.Words.{width};

use floats::Number;

pub trait Worded: Number {
    ghost DIGITS: { ℕ };

    ghost SIGN_BIT: { ℕ };

    ghost INFINITY_BITS: { ℕ };

    ghost NAN_BITS: { ℕ };

    // How many hex digits a word has.
    const DIGITS: usize;

    // The sign's bit, and the bits of the infinity: with the sign off, those above them are the NaNs'.
    const SIGN_BIT: u64;

    const INFINITY_BITS: u64;

    // The bits that a NaN is written with.
    const NAN_BITS: u64;

    // The number with these bits. What stands above the sign's bit counts as the sign. A NaN is made by a division: the bits of one are not turned into a number as they are.
    fn from_word(b: u64) -> Self
        ensures { Self.float result ≡ of_bits Self.format b };

    // The bits of a number.
    fn to_word(self) -> u64
        ensures { result ≡ to_bits Self.format (Self.float self) };

    ghost digits_law: { DIGITS ≡ width Self.format };

    ghost sign_bit_law: { SIGN_BIT ≡ top Self.format };

    ghost infinity_bits_law: { INFINITY_BITS ≡ ones Self.format * hid Self.format };

    ghost nan_bits_law: { NAN_BITS ≡ ones Self.format * hid Self.format + hid Self.format / 2 };
}

impl Worded for f64 {
    ghost DIGITS = { width Self.format };

    ghost SIGN_BIT = { top Self.format };

    ghost INFINITY_BITS = { ones Self.format * hid Self.format };

    ghost NAN_BITS = { ones Self.format * hid Self.format + hid Self.format / 2 };

    const DIGITS: usize = 16;

    const SIGN_BIT: u64 = 0x8000_0000_0000_0000;

    const INFINITY_BITS: u64 = 0x7ff0_0000_0000_0000;

    const NAN_BITS: u64 = 0x7ff8_0000_0000_0000;

    fn from_word(b: u64) -> f64 {
        if Self::INFINITY_BITS < b % Self::SIGN_BIT {
            return Self::ZERO / Self::ZERO;
        }
        f64::from_bits(b)
    }

    fn to_word(self) -> u64 {
        if self != self {
            return Self::NAN_BITS;
        }
        f64::to_bits(self)
    }

    ghost digits_law = { refl };

    ghost sign_bit_law = { refl };

    ghost infinity_bits_law = { refl };

    ghost nan_bits_law = { refl };
}

impl Worded for f32 {
    ghost DIGITS = { width Self.format };

    ghost SIGN_BIT = { top Self.format };

    ghost INFINITY_BITS = { ones Self.format * hid Self.format };

    ghost NAN_BITS = { ones Self.format * hid Self.format + hid Self.format / 2 };

    const DIGITS: usize = 8;

    const SIGN_BIT: u64 = 0x8000_0000;

    const INFINITY_BITS: u64 = 0x7f80_0000;

    const NAN_BITS: u64 = 0x7fc0_0000;

    fn from_word(b: u64) -> f32 {
        if Self::INFINITY_BITS < b % Self::SIGN_BIT {
            return Self::ZERO / Self::ZERO;
        }
        let sign = (b / Self::SIGN_BIT).min(1);
        f32::from_bits((sign * Self::SIGN_BIT + b % Self::SIGN_BIT) as u32)
    }

    fn to_word(self) -> u64 {
        if self != self {
            return Self::NAN_BITS;
        }
        u64::from(f32::to_bits(self))
    }

    ghost digits_law = { refl };

    ghost sign_bit_law = { refl };

    ghost infinity_bits_law = { refl };

    ghost nan_bits_law = { refl };
}
