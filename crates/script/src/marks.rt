// The bits of the first mark of a lent buffer, in each format.
ghost use Rattle.std.specs.Prelude.{◌≡◌, ℕ};
ghost use Rattle.std.proofs.Common.{refl};
ghost use Rattle.script.specs.Numbers.{mark_bits};

use words::Worded;

pub trait Marks: Worded {
    ghost MARK_BITS: { ℕ };

    // The bits of the number from which on numbers are one apart: 2^23 at f32 and 2^52 at f64.
    const MARK_BITS: u64;

    ghost mark_bits_law: { MARK_BITS ≡ mark_bits Self.format };
}

impl Marks for f64 {
    ghost MARK_BITS = { mark_bits Self.format };

    const MARK_BITS: u64 = 0x4330_0000_0000_0000;

    ghost mark_bits_law = { refl };
}

impl Marks for f32 {
    ghost MARK_BITS = { mark_bits Self.format };

    const MARK_BITS: u64 = 0x4b00_0000;

    ghost mark_bits_law = { refl };
}
