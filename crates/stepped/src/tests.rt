// What the stepped calls test of the stage, of how far the call is, and of m.
ghost use Rattle.std.specs.Prelude.{◌≡◌, ◌&&◌, cond, [], ◌++◌, ◌+◌, leb, eqb};
ghost use Rattle.filter.specs.Asked.{within, every};
ghost use Rattle.filter.specs.Filters.{is_predicting_stepped, is_correcting_stepped, is_stepped};
ghost use Rattle.filter.specs.Calls.{sized, named};

use filter::{Kept, Stage, checks};

// ---- 3

pub fn is_predicting_stepped(s: Stage) -> bool
    ensures { result ≡ is_predicting_stepped s }
{
    matches!(s, Stage::PredictingStepped)
}

pub fn is_correcting_stepped(s: Stage) -> bool
    ensures { result ≡ is_correcting_stepped s }
{
    matches!(s, Stage::CorrectingStepped)
}

pub fn is_stepped(s: Stage) -> bool
    ensures { result ≡ is_stepped s }
{
    matches!(s, Stage::PredictingStepped | Stage::CorrectingStepped)
}

// Whether n states have a point k, whatever n.
pub fn has_point(n: usize, k: usize) -> bool
    ensures { result ≡ leb k (n + n) }
{
    k <= n || k - n <= n
}

// Whether a point is due and has been asked for.
pub fn is_ready(n: usize, kept: Kept<f64>) -> bool
    ensures { result ≡ (leb kept.at (n + n) && kept.asked) }
{
    has_point(n, kept.at) && kept.asked
}

// ---- 1

// Whether m is the one that the first image has named, where one has.
pub fn is_named(named: usize, m: usize) -> bool
    ensures { result ≡ every within (cond (eqb named 0) [] (sized m named named)) }
{
    named == 0 || m == named
}

// Whether m is 1 to 4, and that one.
pub fn is_measured(named: usize, m: usize) -> bool
    ensures { result ≡ every within (sized m 1 4 ++ cond (eqb named 0) [] (sized m named named)) }
{
    checks::in_range(1, 4, m) && is_named(named, m)
}
