// New: a filter from n, x, P, Q and the parameters, a track on a sheet; refused, the empty filter. Each part is made by itself, and several tracks may be put on one sheet.
ghost use Rattle.std.specs.Prelude.{◌≡◌};
ghost use Rattle.filter.specs.Calls.{values_of};
ghost use Rattle.filter.specs.New.{fresh_sheet, fresh_track, sheet_from, track_from, from, new_sheet, new_track, new_answer, empty_params, empty_sheet, empty_track, refused_answer, sooner};

use crate::{Answer, Filter, Sheet, Stage, Track, checks, drawn, fronts, tests};
use angles::Kind;
use floats::{Number, Slice, Verdict};
use sigma::Params;

// A new sheet with number and place; refused, the empty filter's.
#[derive_where(Clone, Copy; T: Copy)]
pub struct NewSheet<T> {
    pub refusal: Verdict,
    pub sheet: Sheet<T>,
}

// A new track with number and place; refused, the empty filter's.
#[derive(Clone, Copy)]
pub struct NewTrack<T> {
    pub refusal: Verdict,
    pub track: Track<T>,
}

// All kinds plain.
fn fresh_sheet<T: Number>(n: usize, q: [T; 64], params: Params<T>) -> Sheet<T>
    ensures { T.seen Sheet result ≡ fresh_sheet n (T.floats q) (T.seen Params params) }
{
    Sheet {
        n,
        q,
        params,
        kinds: [Kind::Plain; 8],
    }
}

// Stale, nothing open; points, weights and scratch at +0.
pub fn fresh_track<T: Number>(x: [T; 8], p: [T; 64]) -> Track<T>
    ensures { T.seen Track result ≡ fresh_track (T.floats x) (T.floats p) }
{
    Track {
        x,
        p,
        weights: [T::ZERO; 17],
        points: [T::ZERO; 136],
        stale: true,
        stage: Stage::Shut,
        drawn_weights: [T::ZERO; 17],
        drawn_points: [T::ZERO; 136],
        kept: drawn::nothing_kept(),
    }
}

// n = 0 and every number +0.
pub fn empty_sheet<T: Number>() -> Sheet<T>
    ensures { T.seen Sheet result ≡ empty_sheet }
{
    fresh_sheet(0, [T::ZERO; 64], empty_params())
}

pub fn empty_params<T: Number>() -> Params<T>
    ensures { T.seen Params result ≡ empty_params }
{
    Params {
        alpha: T::ZERO,
        beta: T::ZERO,
        kappa: T::ZERO,
    }
}

pub fn empty_track<T: Number>() -> Track<T>
    ensures { T.seen Track result ≡ empty_track }
{
    fresh_track([T::ZERO; 8], [T::ZERO; 64])
}

// The empty filter, with number and place.
pub fn refused<T: Number>(refusal: Verdict) -> Answer<T>
    ensures { T.seen Answer result ≡ refused_answer refusal }
{
    let sheet = empty_sheet();
    let track = empty_track();
    Filter { sheet, track }.answer(refusal)
}

// What New says of a sheet; the values are those that the parameters bring in.
fn sheet_refusal<T: Number>(n: usize, q: &[T], params: Params<T>, values: &[T]) -> Verdict
    requires { T.floats values.now ≡ values_of (T.seen Params params) }
    ensures { result ≡ (new_sheet T.format n (T.floats q.now) (T.seen Params params)).refusal }
{
    let k = checks::square(n);
    let sized = checks::is_sized(n);
    let in_noise = floats::first_bad(Slice::Noise, q, k);
    let found = floats::next_bad(in_noise, Slice::Lone, values, 3);
    let passing = tests::params_pass(n, params);
    checks::first_refusal(true, sized, k <= q.len(), false, found, true, passing)
}

// A sheet of which it says 0.
fn sheet_from<T: Number>(n: usize, q: &[T], params: Params<T>) -> Sheet<T>
    requires { (new_sheet T.format n (T.floats q.now) (T.seen Params params)).refusal.number ≡ 0 }
    ensures { T.seen Sheet result ≡ sheet_from n (T.floats q.now) (T.seen Params params) }
{
    fresh_sheet(n, fronts::filled(q, checks::square(n)), params)
}

impl<T: Number> Sheet<T> {
    pub fn new(n: usize, q: &[T], params: Params<T>) -> NewSheet<T>
        ensures { T.seen NewSheet result ≡ new_sheet T.format n (T.floats q.now) (T.seen Params params) }
    {
        let values = tests::values(params);
        let refusal = sheet_refusal(n, q, params, &values);
        let sheet = if refusal.number == 0 {
            sheet_from(n, q, params)
        } else {
            empty_sheet()
        };
        NewSheet { refusal, sheet }
    }
}

// What New says of a track.
fn track_refusal<T: Number>(n: usize, x: &[T], p: &[T]) -> Verdict
    ensures { result ≡ (new_track T.format n (from (T.floats x.now) (T.floats p.now))).refusal }
{
    let k = checks::square(n);
    let sized = checks::is_sized(n);
    let long = n <= x.len() && k <= p.len();
    let in_state = floats::first_bad(Slice::State, x, n);
    let found = floats::next_bad(in_state, Slice::Covariance, p, k);
    checks::first_refusal(true, sized, long, false, found, true, true)
}

// A track of which it says 0.
fn track_from<T: Number>(n: usize, x: &[T], p: &[T]) -> Track<T>
    requires { (new_track T.format n (from (T.floats x.now) (T.floats p.now))).refusal.number ≡ 0 }
    ensures { T.seen Track result ≡ track_from n (from (T.floats x.now) (T.floats p.now)) }
{
    fresh_track(fronts::filled(x, n), fronts::filled(p, checks::square(n)))
}

impl<T: Number> Track<T> {
    pub fn new(n: usize, x: &[T], p: &[T]) -> NewTrack<T>
        ensures { T.seen NewTrack result ≡ new_track T.format n (from (T.floats x.now) (T.floats p.now)) }
    {
        let refusal = track_refusal(n, x, p);
        let track = if refusal.number == 0 {
            track_from(n, x, p)
        } else {
            empty_track()
        };
        NewTrack { refusal, track }
    }
}

// What a New says of two of its parts, which have one n, the sheet being the last of them: a slice of the later that is too short (2) comes before a bad number of the earlier, else the earlier part comes first.
pub fn sooner(a: Verdict, b: Verdict) -> Verdict
    ensures { result ≡ sooner a b }
{
    if b.number == 2 {
        return b;
    }
    floats::earlier(a, b)
}

impl<T: Number> Filter<T> {
    pub fn new(n: usize, x: &[T], p: &[T], q: &[T], params: Params<T>) -> Answer<T>
        ensures { T.seen Answer result ≡ new_answer T.format n (T.floats x.now) (T.floats p.now) (T.floats q.now) (T.seen Params params) }
    {
        let values = tests::values(params);
        let of_sheet = sheet_refusal(n, q, params, &values);
        let refusal = sooner(track_refusal(n, x, p), of_sheet);
        if refusal.number != 0 {
            return refused(refusal);
        }
        let sheet = sheet_from(n, q, params);
        let track = track_from(n, x, p);
        Answer {
            filter: Filter { sheet, track },
            refusal,
        }
    }
}
