// What the calls test of the numbers that come in. None of the tests has a `requires`; one that goes by a size is right where the size is in range.
ghost use Rattle.std.specs.Prelude.{◌≡◌, List, false, ◌&&◌, [], ◌++◌, leb, take};
ghost use Rattle.floats.specs.Search.{input};
ghost use Rattle.angles.specs.Kinds.{is_plain};
ghost use Rattle.sigma.specs.Weights.{weights_pass};
ghost use Rattle.filter.specs.Asked.{long, passing, every, first_refusal};
ghost use Rattle.filter.specs.Calls.{lend, values_of, halves, line};

use crate::checks;
use angles::Kind;
use floats::{Number, Slice, Verdict};
use sigma::{Params, weights};

// ---- 56: the lone values that parameters and kinds bring in

pub fn values<T: Number>(params: Params<T>) -> [T; 3]
    ensures { T.floats result ≡ values_of (T.seen Params params) }
{
    [params.alpha, params.beta, params.kappa]
}

pub fn halves<T: Number>(kinds: &[Kind<T>; 4]) -> [T; 4]
    ensures { T.floats result ≡ halves (T.seen (λ A. List (Kind A)) kinds.now) }
{
    [
        kinds[0].half(),
        kinds[1].half(),
        kinds[2].half(),
        kinds[3].half(),
    ]
}

// ---- 10 and 6

pub fn params_pass<T: Number>(n: usize, params: Params<T>) -> bool
    ensures { result ≡ (leb n 8 && weights_pass T.format n (T.seen Params params)) }
{
    n <= 8 && weights::weights_pass(n, params)
}

// Whether the first m kinds pass.
pub fn kinds_pass<T: Number>(m: usize, kinds: &[Kind<T>; 4]) -> bool
    ensures { result ≡ every (passing T.format) (take m (T.seen (λ A. List (Kind A)) kinds.now)) }
{
    for k in &kinds[..m.min(4)] {
        if !k.passes() {
            return false;
        }
    }
    true
}

// Whether none of the first n state kinds is a turn.
pub fn all_plain<T: Number>(n: usize, kinds: &[Kind<T>; 8]) -> bool
    ensures { result ≡ every is_plain (take n (T.seen (λ A. List (Kind A)) kinds.now)) }
{
    for k in &kinds[..n.min(8)] {
        if !matches!(k, Kind::Plain) {
            return false;
        }
    }
    true
}

// ---- calls that take in the first numbers of lent slices

// One slice, and nothing else to test.
pub fn slice_refusal<T: Number>(fits: bool, n: usize, k: usize, slice: Slice, s: &[T]) -> Verdict
    ensures { result ≡ first_refusal T.format (line fits n [] (lend (T.floats s.now) k) false (input slice (take k (T.floats s.now))) []) }
{
    let sized = checks::is_sized(n);
    let found = floats::first_bad(slice, s, k);
    checks::first_refusal(fits, sized, k <= s.len(), false, found, true, true)
}

// Whether each of three slices is long enough.
pub fn all_long<T: Number>(a: &[T], i: usize, b: &[T], j: usize, c: &[T], k: usize) -> bool
    ensures { result ≡ every long (lend (T.floats a.now) i ++ (lend (T.floats b.now) j ++ lend (T.floats c.now) k)) }
{
    i <= a.len() && j <= b.len() && k <= c.len()
}
