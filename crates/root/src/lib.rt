// IEEE 754's squareRoot, to nearest, of a number of either width, worked from its bits: sign, exponent and fraction.
// The answer is a root, or refusal 56 for a NaN, an infinity and what is below zero.
#![tactic(auto)]

ghost use Rattle.std.specs.Prelude.{◌≡◌, ℕ, ◌+◌, ◌-◌, ◌*◌, ◌/◌, ◌^◌, ◌≤◌, ◌<◌, Result};
ghost use Rattle.std.specs.Float.Ieee.{prec, low, hid, ones, of_bits};
ghost use Rattle.root.specs.Definition.{root_of, root_units, near_root};
ghost use Rattle.root.specs.Answer.{root_outcome};

use floats::{Refusal, Slice};

mod rooted;
mod wide;

pub use rooted::Rooted;

// The whole number nearest to the root of d * 2^(DIGITS - 1), a digit at a time from the top. Before the digit at 2^i is looked for, the root is
// between q and q + 2^(i + 1), and y * 2^(i + 1) is twice what d * 2^(DIGITS - 1) has above q * q. No root of a whole number
// lies at a half, so nothing is decided by ties.
fn root_digits<const DIGITS: u32>(d: u64) -> u64
    requires digits { (0 < DIGITS) × (DIGITS ≤ 60) }
    requires one_more { d < 2 ^ (DIGITS + 1) }
    ensures { result ≡ near_root DIGITS (d * 2 ^ (DIGITS - 1)) }
{
    let mut q: u64 = 0;
    let mut y: u64 = d;
    for i in (0..DIGITS).rev() {
        let h: u64 = 1 << i;
        let t = 2 * q + h;
        if t <= y {
            q += h;
            y -= t;
        }
        y *= 2;
    }
    if y > 2 * q { q + 1 } else { q }
}

// The root of n units of the format's smallest number where n * 2^LOWEST = s * 2^a and s has all the format's digits.
// One digit goes over to s where a is odd. The whole number nearest to the root of s * LEADING then has all digits too, and half of a,
// with the one that the left-out leading digit stands for, is the exponent's field.
fn normal_root<T: Rooted>(s: u64, a: u64) -> T
    requires digits { (hid T.format ≤ s) × (s < 2 ^ prec T.format) }
    requires exponent { a / 2 + 1 < ones T.format }
    ensures { (n : ℕ) → n * 2 ^ (low T.format - (prec T.format - 1)) ≡ s * 2 ^ a → T.float result ≡ root_units T.format n }
{
    let d = if a & 1 == 1 { 2 * s } else { s };
    let q = T::nearest_root(d);
    let exponent = (a >> 1) + 1;
    // the format leaves out the leading digit of q
    let fraction = q & (T::LEADING - 1);
    T::of_bits((exponent << T::PLACES) | fraction)
}

// The root of the value that the bits b stand for: finite, and above zero.
fn positive_root<T: Rooted>(b: u64) -> T
    requires { (0 < b) × (b < ones T.format * hid T.format) }
    ensures { T.float result ≡ root_of T.format (of_bits T.format b) }
{
    let exponent = b >> T::PLACES;
    let fraction = b & (T::LEADING - 1);
    if exponent == 0 {
        // a subnormal has no leading digit: its fraction is shifted up until it has all the format's digits
        let z = fraction.leading_zeros() - (63 - T::PLACES);
        normal_root(fraction << z, T::LOWEST - z as u64)
    } else {
        normal_root(fraction | T::LEADING, exponent + T::LOWEST - 1)
    }
}

// The value of the format nearest to the root of x. A NaN, an infinity and what is below zero are refused: IEEE 754 gives the infinity a root, but no finite one.
pub fn square_root<T: Rooted>(x: T) -> Result<T, Refusal>
    ensures { T.seen (λ A. Result A Refusal) result ≡ root_outcome T.format (T.float x) }
{
    // a NaN has no bits of its own, so it is told before the bits are taken
    if x != x {
        return Err(Refusal::Number(Slice::Lone, 0));
    }
    let b = x.bits();
    // nothing but a sign: a zero is its own root
    if b & (T::SIGN - 1) == 0 {
        return Ok(x);
    }
    // sign and exponent as one: an infinity has INFINITE, what is below zero more
    if b >> T::PLACES >= T::INFINITE {
        return Err(Refusal::Number(Slice::Lone, 0));
    }
    Ok(positive_root(b))
}
