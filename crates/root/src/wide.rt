// The digits of an f64's root: a guess, which is judged.
ghost use Rattle.std.specs.Prelude.{◌≡◌, true, ◌*◌, ◌^◌, ◌<◌};
ghost use Rattle.root.specs.Definition.{near_root};

use crate::root_digits;

// Whether q is the whole number nearest to the root of N = d * 2^52, with no root worked out: whether (q - 1/2)^2 < N < (q + 1/2)^2,
// that is, whether q * q + q is not below N, and above it by less than 2 * q. The halves h and l of q keep the products within 64 bits.
// For d = 0 the answer is no.
fn is_nearest_root(d: u64, q: u64) -> bool
    requires { d < 2 ^ 54 }
    ensures { (result ≡ true → q ≡ near_root 53 (d * 2 ^ 52)) × (0 < d → q ≡ near_root 53 (d * 2 ^ 52) → result ≡ true) }
{
    if q > 0x20_0000_0000_0000 {
        return false;
    }
    let h = q / 0x400_0000;
    let l = q % 0x400_0000;
    // q * q + q is first * 2^52 and the last 26 digits of middle and of last
    let last = l * (l + 1);
    let middle = h * (2 * l + 1) + last / 0x400_0000;
    let first = h * h + middle / 0x400_0000;
    if first < d {
        return false;
    }
    let above = first - d;
    // 2 * q is no more than 4 * 2^52
    if above > 3 {
        return false;
    }
    let rest = above * 0x10_0000_0000_0000 + middle % 0x400_0000 * 0x400_0000 + last % 0x400_0000;
    if rest >= 2 * q {
        return false;
    }
    true
}

// The product of the last 32 digits of a and of b.
fn product(a: u64, b: u64) -> u64 {
    (a % 0x1_0000_0000) * (b % 0x1_0000_0000)
}

// That product divided by 2^31.
fn high_part(a: u64, b: u64) -> u64
    ensures { result < 2 ^ 33 }
{
    product(a, b) / 0x8000_0000
}

// A guess at the whole number nearest to the root of d * 2^52, for a d of 53 or 54 digits. Nothing is promised of it: it is judged.
// It multiplies numbers of 32 digits and divides by powers of two alone, so that a small processor is quick at it too.
// With m = d / 2^54, s is to be the root of m in units of 2^-32, and r is to be 1 / s in units of 2^-31. A parabola in 1 - m gives r to 3 %.
// Each step multiplies both by (3 - s * r) / 2, which brings s * r to 1 with twice the digits. Then s is short by less than 8 units (tried, not
// proved), and what m has above s * s gives the rest: a 16th of that still has no more than 32 digits.
fn guessed_root(d: u64) -> u64
    requires { d < 2 ^ 54 }
{
    // 1 - m in units of 2^-31
    let t = 0x8000_0000 - d / 0x80_0000;
    let mut r = 2_145_000_000 + high_part(t, 322_000_000 + high_part(t, 3_178_000_000));
    let mut s = high_part(d / 0x40_0000, r);
    for _ in 0..3 {
        // 3 in units of 2^-30, less a little, so that s stays below the root
        let v = 0xbfff_fffe - high_part(s, r) / 4;
        s = high_part(s, v);
        r = high_part(r, v);
    }
    let n = 1024 * d;
    let square = product(s, s);
    // not met for such a d, but what is taken away must not be the larger
    if n < square {
        return 0;
    }
    // the rest in units of 1/256: 128 of them round, and 2 make up for some of what was cut off
    0x20_0000 * s + (high_part((n - square) / 16, r) + 130) / 256
}

// The whole number nearest to the root of d * 2^52: a guess that is judged to be it, or else digit by digit.
pub(crate) fn nearest_root(d: u64) -> u64
    requires { d < 2 ^ 54 }
    ensures { result ≡ near_root 53 (d * 2 ^ 52) }
{
    let q = guessed_root(d);
    if is_nearest_root(d, q) {
        return q;
    }
    root_digits::<53>(d)
}
