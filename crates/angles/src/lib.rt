// The exact wrap of a difference of headings into (-h, h], and the residual kinds that use it.
#![tactic(auto)]

ghost use Rattle.std.specs.Prelude.{◌≡◌, true, false, Result};
ghost use Rattle.std.specs.Float.Ieee.{lt, rem};
ghost use Rattle.std.specs.Float.Ieee.Scale.{finite};
ghost use Rattle.floats.specs.declared.Refusal.{Refusal};
ghost use Rattle.floats.specs.Numbers.{plus_zero};
ghost use Rattle.angles.specs.declared.Kind.{Kind};
ghost use Rattle.angles.specs.Wrap.{wrap_step, half_turn, wrap_of, shown};
ghost use Rattle.angles.specs.Kinds.{through_of, half_of, passes, kind_of};

use floats::{Number, Refusal, Slice};

// The remainder of r by t, both finite and above 0: that by twice t, less t where it isn't below t. No r of the format reaches a twice that is beyond the format, so that then t is taken off once.
// Nothing is rounded: what is taken off is at least half of what it is taken from.
fn rest<T: Number>(r: T, t: T) -> T
    requires size { (finite (T.float r) ≡ true) × (lt plus_zero (T.float r) ≡ true) }
    requires divisor { (finite (T.float t) ≡ true) × (lt plus_zero (T.float t) ≡ true) }
    ensures { T.float result ≡ rem T.format (T.float r) (T.float t) }
{
    r.held();
    t.held();
    if r < t {
        return r;
    }
    let twice = t + t;
    if !floats::is_finite(twice) {
        return r - t;
    }
    let left = rest(r, twice);
    if left < t {
        return left;
    }
    left - t
}

// The remainder of d by a p that is not below 0; it has the sign of d. NaN where d isn't finite or p is a zero or NaN.
fn remainder_by<T: Number>(d: T, p: T) -> T
    requires { lt (T.float p) plus_zero ≡ false }
    ensures { T.float result ≡ rem T.format (T.float d) (T.float p) }
{
    d.held();
    p.held();
    let none = T::ZERO / T::ZERO;
    if !floats::is_finite(d) {
        return none;
    }
    if !(T::ZERO < p) {
        return none;
    }
    if !floats::is_finite(p) {
        return d;
    }
    if d < T::ZERO {
        return -rest(-d, p);
    }
    if T::ZERO < d {
        return rest(d, p);
    }
    d
}

// d % p, as IEEE 754's language bindings have it: d less a whole number of p's, with the sign of d and below p in size. The C library is not asked.
fn remainder<T: Number>(d: T, p: T) -> T
    ensures { T.float result ≡ rem T.format (T.float d) (T.float p) }
{
    p.held();
    if p < T::ZERO {
        return remainder_by(d, -p);
    }
    remainder_by(d, p)
}

// The wrap's lines for any bits, as a step uses them: a d that isn't finite comes out not finite. It judges nothing: an h that 6 would refuse gives what the lines give.
fn wrap_step<T: Number>(d: T, h: T) -> T
    ensures { T.float result ≡ wrap_step T.format (T.float d) (T.float h) }
{
    let p = h + h;
    let r = remainder(d, p);
    let over = h < r;
    if over {
        return r - p;
    }
    let under = r <= -h;
    if under {
        return r + p;
    }
    r
}

// What 6 asks of a half-turn: h above 0 and 2h finite.
fn is_half_turn<T: Number>(h: T) -> bool
    ensures { result ≡ half_turn T.format (T.float h) }
{
    T::ZERO < h && floats::is_finite(h + h)
}

// The wrap for any caller: 56 where d or h isn't finite, else 6 where h isn't above 0 or 2h isn't finite; at place 0.
pub fn wrap<T: Number>(d: T, h: T) -> Result<T, Refusal>
    ensures { T.seen (λ A. Result A Refusal) result ≡ wrap_of T.format (T.float d) (T.float h) }
{
    let numbers = floats::is_finite(d) && floats::is_finite(h);
    if !numbers {
        return Err(Refusal::Number(Slice::Lone, 0));
    }
    if !is_half_turn(h) {
        return Err(Refusal::Param);
    }
    Ok(wrap_step(d, h))
}

// The number that is shown of what a wrap answers: the wrapped value, +0 where it is refused.
pub fn shown<T: Number>(w: Result<T, Refusal>) -> T
    ensures { T.float result ≡ shown (T.seen (λ A. Result A Refusal) w) }
{
    match w {
        Ok(value) => value,
        Err(_) => T::ZERO,
    }
}

// How a difference is taken: as it is, or wrapped at a half-turn.
#[derive(Clone, Copy, Debug, PartialEq)]
pub enum Kind<T> {
    Plain,
    Turn(T),
}

impl<T: Number> Kind<T> {
    // A difference passed through the kind, whether or not the kind would pass its check.
    pub fn through(self, d: T) -> T
        ensures { T.float result ≡ through_of T.format (T.seen Kind self) (T.float d) }
    {
        match self {
            Kind::Plain => d,
            Kind::Turn(h) => wrap_step(d, h),
        }
    }

    // The number that the kind brings in: its half-turn, and of a plain one +0.
    pub fn half(self) -> T
        ensures { T.float result ≡ half_of (T.seen Kind self) }
    {
        match self {
            Kind::Plain => T::ZERO,
            Kind::Turn(h) => h,
        }
    }

    // What 6 asks of the kind: a turn's h above 0 and 2h finite.
    pub fn passes(self) -> bool
        ensures { result ≡ passes T.format (T.seen Kind self) }
    {
        match self {
            Kind::Plain => true,
            Kind::Turn(h) => is_half_turn(h),
        }
    }
}

// The check of a kind: 56 where its half-turn isn't finite, else 6 where it isn't above 0 or twice it isn't finite; at place 0.
pub fn kind_refusal<T: Number>(k: Kind<T>) -> Result<Kind<T>, Refusal>
    ensures { T.seen (λ A. Result (Kind A) Refusal) result ≡ kind_of T.format (T.seen Kind k) }
{
    if !floats::is_finite(k.half()) {
        return Err(Refusal::Number(Slice::Lone, 0));
    }
    if !k.passes() {
        return Err(Refusal::Param);
    }
    Ok(k)
}
