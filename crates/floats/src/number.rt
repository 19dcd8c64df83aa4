// What an f32 and an f64 have in common: IEEE 754's arithmetic in a format. What is written over it is proved of both at once.
ghost use Rattle.std.specs.Prelude.{◌≡◌, ◌≤◌, List, map, pos, true, false};
ghost use Rattle.std.specs.Ordering.{partial_lt, partial_le};
ghost use Rattle.std.specs.Float.{Float, Format, binary32, binary64, inf};
ghost use Rattle.std.specs.Float.Ieee.{add, sub, mul, div, neg, eq, lt, le, of_int, fits};
ghost use Rattle.std.proofs.Common.{refl, sym};
ghost use Rattle.std.proofs.lemmas.List.{map-id};
ghost use Rattle.floats.specs.Numbers.{plus_zero, one};
ghost use Rattle.floats.specs.Compared.{lt_answers, le_answers};

use std::ops::{Add, Div, Mul, Neg, Sub};

pub trait Number: Copy
    + PartialOrd
    + Add<Self, Output = Self>
    + Sub<Self, Output = Self>
    + Mul<Self, Output = Self>
    + Div<Self, Output = Self>
    + Neg<Output = Self> {
    ghost format: { Format };

    // The number of the format that a value is, and those that a list of values is.
    ghost float: { Self → Float };

    ghost floats: { List Self → List Float };

    // The same of whatever is made of values, as a filter is; and that nothing tells it from what is made of floats.
    ghost seen: { (F : Type 0 → Type 0) → F Self → F Float };

    ghost same: { (P : (A : Type 0) → ((F : Type 0 → Type 0) → F A → F Float) → Type 0) → P Float (λ F x. x) → P Self seen };

    ghost ZERO: { Self };

    ghost ONE: { Self };

    ghost INFINITY: { Self };

    const ZERO: Self;

    const ONE: Self;

    const INFINITY: Self;

    // A small whole number, which both formats hold.
    fn whole(n: usize) -> Self
        requires { n ≤ 256 }
        ensures { float result ≡ of_int format (pos n) };

    // Says to a proof that the format holds the value, as it does any: no law can say so, since in the logic a value may be a number of any format. It does nothing.
    fn held(self)
        ensures { fits format (float self) ≡ true };

    ghost float_law: { (x : Self) → float x ≡ seen (λ A. A) x };

    ghost floats_seen_law: { (l : List Self) → floats l ≡ seen List l };

    ghost floats_law: { (l : List Self) → floats l ≡ map float l };

    ghost zero_law: { float ZERO ≡ plus_zero };

    ghost one_law: { float ONE ≡ one };

    ghost infinity_law: { float INFINITY ≡ inf false };

    ghost eq_law: { (a b : Self) → Self.eq a b ≡ eq (float a) (float b) };

    ghost lt_law: { (a b : Self) → partial_lt Self.partial_cmp a b ≡ lt (float a) (float b) };

    ghost le_law: { (a b : Self) → partial_le Self.partial_cmp a b ≡ le (float a) (float b) };

    ghost can_add_law: { (a b : Self) → Self.can_add a b };

    ghost add_law: { (a b r : Self) → Self.add_gives a b r → float r ≡ add format (float a) (float b) };

    ghost can_sub_law: { (a b : Self) → Self.can_sub a b };

    ghost sub_law: { (a b r : Self) → Self.sub_gives a b r → float r ≡ sub format (float a) (float b) };

    ghost can_mul_law: { (a b : Self) → Self.can_mul a b };

    ghost mul_law: { (a b r : Self) → Self.mul_gives a b r → float r ≡ mul format (float a) (float b) };

    ghost can_div_law: { (a b : Self) → Self.can_div a b };

    ghost div_law: { (a b r : Self) → Self.div_gives a b r → float r ≡ div format (float a) (float b) };

    ghost can_neg_law: { (a : Self) → Self.can_neg a };

    ghost neg_law: { (a r : Self) → Self.neg_gives a r → float r ≡ neg (float a) };
}

impl Number for f64 {
    ghost format = { binary64 };

    ghost float = { λ x. x };

    ghost floats = { λ l. l };

    ghost seen = { λ F x. x };

    ghost same = { λ P p. p };

    ghost ZERO = { plus_zero };

    ghost ONE = { one };

    ghost INFINITY = { inf false };

    const ZERO: f64 = 0.0;

    const ONE: f64 = 1.0;

    const INFINITY: f64 = f64::INFINITY;

    fn whole(n: usize) -> f64 {
        n as f64
    }

    fn held(self) {}

    ghost float_law = { λ x. refl };

    ghost floats_seen_law = { λ l. refl };

    ghost floats_law = { λ l. sym (map-id l) };

    ghost zero_law = { refl };

    ghost one_law = { refl };

    ghost infinity_law = { refl };

    ghost eq_law = { λ a b. refl };

    ghost lt_law = { lt_answers };

    ghost le_law = { le_answers };

    ghost can_add_law = { λ a b. tt };

    ghost add_law = { λ a b r h. h };

    ghost can_sub_law = { λ a b. tt };

    ghost sub_law = { λ a b r h. h };

    ghost can_mul_law = { λ a b. tt };

    ghost mul_law = { λ a b r h. h };

    ghost can_div_law = { λ a b. tt };

    ghost div_law = { λ a b r h. h };

    ghost can_neg_law = { λ a. tt };

    ghost neg_law = { λ a r h. h };
}

impl Number for f32 {
    ghost format = { binary32 };

    ghost float = { λ x. x };

    ghost floats = { λ l. l };

    ghost seen = { λ F x. x };

    ghost same = { λ P p. p };

    ghost ZERO = { plus_zero };

    ghost ONE = { one };

    ghost INFINITY = { inf false };

    const ZERO: f32 = 0.0;

    const ONE: f32 = 1.0;

    const INFINITY: f32 = f32::INFINITY;

    fn whole(n: usize) -> f32 {
        n as f32
    }

    fn held(self) {}

    ghost float_law = { λ x. refl };

    ghost floats_seen_law = { λ l. refl };

    ghost floats_law = { λ l. sym (map-id l) };

    ghost zero_law = { refl };

    ghost one_law = { refl };

    ghost infinity_law = { refl };

    ghost eq_law = { λ a b. refl };

    ghost lt_law = { lt_answers };

    ghost le_law = { le_answers };

    ghost can_add_law = { λ a b. tt };

    ghost add_law = { λ a b r h. h };

    ghost can_sub_law = { λ a b. tt };

    ghost sub_law = { λ a b r h. h };

    ghost can_mul_law = { λ a b. tt };

    ghost mul_law = { λ a b r h. h };

    ghost can_div_law = { λ a b. tt };

    ghost div_law = { λ a b r h. h };

    ghost can_neg_law = { λ a. tt };

    ghost neg_law = { λ a r h. h };
}
