// The floor of the house: tests of numbers that every other crate stands on, and what every answer says.
#![tactic(auto)]

ghost use Rattle.std.specs.Prelude.{◌≡◌, take};
ghost use Rattle.std.specs.Float.Ieee.Scale.{finite};
ghost use Rattle.floats.specs.Refusal.{slice_number, verdict, placeless, earlier, refusal};
ghost use Rattle.floats.specs.Search.{input, searched};
ghost use Rattle.floats.specs.Numbers.{all_finite, above_zero};

mod number;

pub use number::Number;

// What the numbers that come in are, in the order in which they are searched; but New of a pair takes x and P of the second right after those of the first, and the number doesn't tell whose. The first bad one of a slice is told by its place there, from 0.
#[derive(Clone, Copy, Debug, PartialEq, Eq)]
pub enum Slice {
    // 51: x
    State,
    // 52: P
    Covariance,
    // 53: Q or R
    Noise,
    // 54: propagated or observed
    Points,
    // 55: z
    Measurement,
    // 56: alpha, beta and kappa at 0, 1 and 2; the half-turn of a measurement at its index; any other at 0
    Lone,
}

// Why a call is refused, as documents 01 and 02 have it in their tables: a bad number by its slice and its place there, a bad pivot by its row.
#[derive(Clone, Copy, Debug, PartialEq, Eq)]
pub enum Refusal {
    Size,
    Short,
    Stage,
    Stale,
    Number(Slice, usize),
    Param,
    Pivot(usize),
    Innovation(usize),
    Range,
    Kind,
    Fresh,
    Record,
}

// What every answer says: 0 or the number of a refusal, and the place that the refusal tells, else 0.
#[derive(Clone, Copy)]
pub struct Verdict {
    pub number: u8,
    pub place: usize,
}

// Whether x is neither a NaN nor an infinity.
pub fn is_finite<T: Number>(x: T) -> bool
    ensures { result ≡ finite (T.float x) }
{
    -T::INFINITY < x && x < T::INFINITY
}

// Whether x is finite and above 0.
pub fn is_above_zero<T: Number>(x: T) -> bool
    ensures { result ≡ above_zero (T.float x) }
{
    is_finite(x) && T::ZERO < x
}

// Whether the first k numbers of s are all finite; of an s that is shorter, whether all of it is.
pub fn all_finite<T: Number>(s: &[T], k: usize) -> bool
    ensures { result ≡ all_finite (take k (T.floats s.now)) }
{
    for x in &s[..s.len().min(k)] {
        if !is_finite(*x) {
            return false;
        }
    }
    true
}

// ---- what every answer says

// A number at place 0.
pub fn placeless(number: u8) -> Verdict
    ensures { result ≡ placeless number }
{
    Verdict { number, place: 0 }
}

// Of two that are looked for one after the other, the first that refuses; where the first doesn't, what the second says.
pub fn earlier(a: Verdict, b: Verdict) -> Verdict
    ensures { result ≡ earlier a b }
{
    if a.number == 0 {
        return b;
    }
    a
}

// The number of a slice that has a bad number.
pub fn slice_number(s: Slice) -> u8
    ensures { result ≡ slice_number s }
{
    match s {
        Slice::State => 51,
        Slice::Covariance => 52,
        Slice::Noise => 53,
        Slice::Points => 54,
        Slice::Measurement => 55,
        Slice::Lone => 56,
    }
}

impl Refusal {
    // Its number in the table, and the place that it tells, else 0.
    pub fn verdict(self) -> Verdict
        ensures { result ≡ verdict self }
    {
        match self {
            Refusal::Size => placeless(1),
            Refusal::Short => placeless(2),
            Refusal::Stage => placeless(3),
            Refusal::Stale => placeless(4),
            Refusal::Number(slice, place) => Verdict {
                number: slice_number(slice),
                place,
            },
            Refusal::Param => placeless(6),
            Refusal::Pivot(row) => Verdict {
                number: 7,
                place: row,
            },
            Refusal::Innovation(row) => Verdict {
                number: 8,
                place: row,
            },
            Refusal::Range => placeless(9),
            Refusal::Kind => placeless(10),
            Refusal::Fresh => placeless(11),
            Refusal::Record => placeless(12),
        }
    }
}

// ---- the search

// The search of the first k numbers of s, or of all where s is shorter: the first that isn't finite, by its slice and its place.
pub fn first_bad<T: Number>(slice: Slice, s: &[T], k: usize) -> Verdict
    ensures { result ≡ refusal (searched (input slice (take k (T.floats s.now)))) }
{
    for (place, x) in s[..s.len().min(k)].iter().enumerate() {
        if !is_finite(*x) {
            let number = slice_number(slice);
            return Verdict { number, place };
        }
    }
    placeless(0)
}

// The search goes on in another slice, unless it has found something.
pub fn next_bad<T: Number>(found: Verdict, slice: Slice, s: &[T], k: usize) -> Verdict
    ensures { result ≡ earlier found (refusal (searched (input slice (take k (T.floats s.now))))) }
{
    if found.number != 0 {
        return found;
    }
    first_bad(slice, s, k)
}
