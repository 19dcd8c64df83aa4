// What the calls test of sizes and stages, with no number in it, and the order of the refusals. None of the tests has a `requires`; one that goes by a size is right where the size is in range.
ghost use Rattle.std.specs.Prelude.{◌≡◌, true, false, ◌&&◌, cond, ◌+◌, ◌*◌, leb, ltb};
ghost use Rattle.floats.specs.Refusal.{earlier, refusal, nothing};
ghost use Rattle.filter.specs.Asked.{in_range, in_order};
ghost use Rattle.filter.specs.Filters.{is_shut, is_predicting, is_correcting};
ghost use Rattle.filter.specs.Calls.{observed_numbers};

use crate::Stage;
use floats::Verdict;

// What comes before the numbers, in the order 3, 1, 2, 4; else 0.
pub fn early_refusal(fits: bool, sized: bool, long: bool, stale: bool) -> Verdict
    ensures { result ≡ refusal (in_order fits sized long true stale false nothing true true nothing) }
{
    if !fits {
        return floats::placeless(3);
    }
    if !sized {
        return floats::placeless(1);
    }
    if !long {
        return floats::placeless(2);
    }
    if stale {
        return floats::placeless(4);
    }
    floats::placeless(0)
}

// The first refusal in the order 3, 1, 2, 4, what the search has found (51 to 56), 10, 6; else 0.
pub fn first_refusal(
    fits: bool,
    sized: bool,
    long: bool,
    stale: bool,
    found: Verdict,
    plain: bool,
    passing: bool,
) -> Verdict
    ensures { result ≡ earlier (refusal (in_order fits sized long true stale false nothing true true nothing)) (earlier found (refusal (in_order true true true true false false nothing plain passing nothing))) }
{
    let early = early_refusal(fits, sized, long, stale);
    if early.number != 0 {
        return early;
    }
    if found.number != 0 {
        return found;
    }
    if !plain {
        return floats::placeless(10);
    }
    if !passing {
        return floats::placeless(6);
    }
    floats::placeless(0)
}

// ---- 3

pub fn is_shut(s: Stage) -> bool
    ensures { result ≡ is_shut s }
{
    matches!(s, Stage::Shut)
}

// Of the whole-list way.
pub fn is_predicting(s: Stage) -> bool
    ensures { result ≡ is_predicting s }
{
    matches!(s, Stage::Predicting)
}

pub fn is_correcting(s: Stage) -> bool
    ensures { result ≡ is_correcting s }
{
    matches!(s, Stage::Correcting)
}

// ---- 1

pub fn in_range(from: usize, to: usize, n: usize) -> bool
    ensures { result ≡ in_range from to n }
{
    from <= n && n <= to
}

// Whether there are 1 to 8 states.
pub fn is_sized(n: usize) -> bool
    ensures { result ≡ in_range 1 8 n }
{
    in_range(1, 8, n)
}

// Whether i is the index of one of 1 to 8 states.
pub fn is_state(i: usize, n: usize) -> bool
    ensures { result ≡ (in_range 1 8 n && ltb i n) }
{
    is_sized(n) && i < n
}

// ---- how many numbers are needed, at sizes up to 8

// The numbers of a square matrix.
pub fn square(n: usize) -> usize
    ensures { result ≡ cond (leb n 8) (n * n) 0 }
{
    if n <= 8 { n * n } else { 0 }
}

// The numbers of 2n+1 points of d.
pub fn point_numbers(n: usize, d: usize) -> usize
    ensures { result ≡ cond (leb n 8 && leb d 8) (observed_numbers n d) 0 }
{
    if n <= 8 && d <= 8 { (n + n + 1) * d } else { 0 }
}

// The index of the last point.
pub fn last_point(n: usize) -> usize
    ensures { result ≡ cond (leb n 8) (n + n) 0 }
{
    if n <= 8 { n + n } else { 0 }
}
