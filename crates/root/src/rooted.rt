// What the root needs of a number: its bits and how they are laid out, and the root's digits.
ghost use Rattle.std.specs.Prelude.{◌≡◌, ℕ, ◌-◌};
ghost use Rattle.std.specs.Float.Ieee.{prec, low, hid, ones, top, of_bits, to_bits};
ghost use Rattle.std.proofs.Common.{refl};
ghost use Rattle.root.specs.Definition.{nearest_of};

use crate::{root_digits, wide};
use floats::Number;
use std::num::{
    f32_from_bits_with_nan, f32_to_bits_with_nan, f64_from_bits_with_nan, f64_to_bits_with_nan,
};

pub trait Rooted: Number {
    ghost PLACES: { ℕ };

    ghost LEADING: { ℕ };

    ghost LOWEST: { ℕ };

    ghost INFINITE: { ℕ };

    ghost SIGN: { ℕ };

    // The digits that the bits have of a number: all but the leading one, which they leave out.
    const PLACES: u32;

    // That leading digit, put before the others.
    const LEADING: u64;

    // The smallest number that isn't subnormal is 2^-LOWEST.
    const LOWEST: u64;

    // The exponent's field of an infinity.
    const INFINITE: u64;

    // The sign's bit.
    const SIGN: u64;

    // The bits that stand for a number. A NaN, which has many, gets one of them.
    fn bits(self) -> u64
        ensures value { result ≡ to_bits Self.format (Self.float self) }
        ensures back { of_bits Self.format result ≡ Self.float self };

    // The number that bits stand for. What stands above the sign's bit counts as the sign.
    fn of_bits(b: u64) -> Self
        ensures { Self.float result ≡ of_bits Self.format b };

    // The whole number nearest to the root of d * LEADING, for a d that has at most one digit more than the format; 0 for a larger one.
    fn nearest_root(d: u64) -> u64
        ensures { result ≡ nearest_of Self.format d };

    ghost places_law: { PLACES ≡ prec Self.format - 1 };

    ghost leading_law: { LEADING ≡ hid Self.format };

    ghost lowest_law: { LOWEST ≡ low Self.format - (prec Self.format - 1) };

    ghost infinite_law: { INFINITE ≡ ones Self.format };

    ghost sign_law: { SIGN ≡ top Self.format };
}

impl Rooted for f64 {
    ghost PLACES = { 52 };

    ghost LEADING = { 0x10_0000_0000_0000 };

    ghost LOWEST = { 1022 };

    ghost INFINITE = { 0x7ff };

    ghost SIGN = { 0x8000_0000_0000_0000 };

    const PLACES: u32 = 52;

    const LEADING: u64 = 0x10_0000_0000_0000;

    const LOWEST: u64 = 1022;

    const INFINITE: u64 = 0x7ff;

    const SIGN: u64 = 0x8000_0000_0000_0000;

    fn bits(self) -> u64 {
        f64_to_bits_with_nan(self)
    }

    fn of_bits(b: u64) -> f64 {
        f64_from_bits_with_nan(b)
    }

    fn nearest_root(d: u64) -> u64 {
        if d >= 0x40_0000_0000_0000 {
            return 0;
        }
        wide::nearest_root(d)
    }

    ghost places_law = { refl };

    ghost leading_law = { refl };

    ghost lowest_law = { refl };

    ghost infinite_law = { refl };

    ghost sign_law = { refl };
}

impl Rooted for f32 {
    ghost PLACES = { 23 };

    ghost LEADING = { 0x80_0000 };

    ghost LOWEST = { 126 };

    ghost INFINITE = { 0xff };

    ghost SIGN = { 0x8000_0000 };

    const PLACES: u32 = 23;

    const LEADING: u64 = 0x80_0000;

    const LOWEST: u64 = 126;

    const INFINITE: u64 = 0xff;

    const SIGN: u64 = 0x8000_0000;

    fn bits(self) -> u64 {
        u64::from(f32_to_bits_with_nan(self))
    }

    fn of_bits(b: u64) -> f32 {
        let word = if b < Self::SIGN {
            b
        } else {
            Self::SIGN + b % Self::SIGN
        };
        f32_from_bits_with_nan(word as u32)
    }

    // so few digits are quick one by one
    fn nearest_root(d: u64) -> u64 {
        if d >= 0x200_0000 {
            return 0;
        }
        root_digits::<24>(d)
    }

    ghost places_law = { refl };

    ghost leading_law = { refl };

    ghost lowest_law = { refl };

    ghost infinite_law = { refl };

    ghost sign_law = { refl };
}
