// The answers, line by line, put after the bytes of out that are used. Each hands back how many are used then, and what is held where the call is on it.
ghost use Rattle.std.specs.Prelude.{◌≡◌, List, take};
ghost use Rattle.angles.specs.declared.Kind.{Kind};
ghost use Rattle.sigma.specs.declared.Params.{Params};
ghost use Rattle.filter.specs.declared.Filter.{Filter};
ghost use Rattle.script.specs.Page.{page};
ghost use Rattle.lines.specs.Answers.{Shown, kept_numbers, put_labelled, put_params, put_kind, put_kinds, put_moments, put_lists, put_settings, put_current, put_drawn, Sized, FilterShown, Progressed, KeptShown};

use crate::subject::{Done, Subject};
use angles::Kind;
use filter::{Filter, Kept, checks};
use floats::Verdict;
use sigma::Params;
use words::Worded;

// What is held, and how many bytes of answers wait.
#[derive(Clone, Copy)]
pub struct Turn<S> {
    pub held: S,
    pub used: usize,
}

// A line that is no call: it changes nothing.
pub fn bad<S: Copy>(held: S, out: &mut [u8], used: usize) -> Turn<S>
    ensures { result.held ≡ held }
{
    Turn {
        held,
        used: script::put(out, used, b"bad\n"),
    }
}

// Number and place, alone.
pub fn number<S: Copy>(a: Done<S>, out: &mut [u8], used: usize) -> Turn<S>
    ensures { result.held ≡ a.held }
{
    let at = script::put_verdict(out, used, a.refusal);
    Turn {
        held: a.held,
        used: script::put(out, at, b"\n"),
    }
}

// Number and place, and all of a lent buffer.
pub fn buffer<T: Worded, S: Copy>(a: Done<S>, lent: &[T], out: &mut [u8], used: usize) -> Turn<S>
    ensures { result.held ≡ a.held }
{
    let at = script::put_verdict(out, used, a.refusal);
    let at = script::put(out, at, b" ");
    let at = script::put_decimal(out, at, lent.len() as u64);
    let at = script::put_numbers(out, at, lent, lent.len());
    Turn {
        held: a.held,
        used: script::put(out, at, b"\n"),
    }
}

// Number and place, and all of the lent bytes.
pub fn bytes(refusal: Verdict, lent: &[u8], out: &mut [u8], used: usize) -> usize {
    let at = script::put_verdict(out, used, refusal);
    let at = script::put(out, at, b" ");
    let at = script::put_decimal(out, at, lent.len() as u64);
    let at = script::put_bytes(out, at, lent);
    script::put(out, at, b"\n")
}

// A label, and the first k of some numbers.
fn put_labelled<T: Worded>(
    out: &mut [u8],
    used: usize,
    label: &[u8],
    numbers: &[T],
    k: usize,
) -> usize
    ensures { Shown (put_labelled T.format label.now (T.floats numbers.now) k (page out.old used)) result out.new }
{
    let at = script::put(out, used, label);
    script::put_numbers(out, at, numbers, k)
}

// Of a filter: x and P.
pub fn put_moments<T: Worded>(out: &mut [u8], used: usize, filter: Filter<T>) -> usize
    ensures { Shown (put_moments T.format (T.seen Filter filter) (page out.old used)) result out.new }
{
    let n = filter.sheet.n;
    let at = put_labelled(out, used, b" x", &filter.track.x, n);
    put_labelled(out, at, b" P", &filter.track.p, checks::square(n))
}

// A close: number and place, and where accepted x and P.
pub fn close<S: Subject>(a: Done<S>, out: &mut [u8], used: usize) -> Turn<S>
    ensures { result.held ≡ a.held }
{
    if a.refusal.number != 0 {
        return number(a, out, used);
    }
    let at = script::put_verdict(out, used, a.refusal);
    let at = a.held.put_moments(out, at);
    Turn {
        held: a.held,
        used: script::put(out, at, b"\n"),
    }
}

fn put_params<T: Worded>(out: &mut [u8], used: usize, params: Params<T>) -> usize
    ensures { Shown (put_params T.format (T.seen Params params) (page out.old used)) result out.new }
{
    let at = script::put_number(out, used, params.alpha);
    let at = script::put_number(out, at, params.beta);
    script::put_number(out, at, params.kappa)
}

// Number and place, and the parameters.
pub fn params<S: Subject>(held: S, out: &mut [u8], used: usize) -> Turn<S>
    ensures { result.held ≡ held }
{
    let read = held.read_params();
    let at = script::put_verdict(out, used, read.refusal);
    let at = put_params(out, at, read.params);
    Turn {
        held,
        used: script::put(out, at, b"\n"),
    }
}

// Number and place, and the stale mark.
pub fn stale<S: Subject>(held: S, out: &mut [u8], used: usize) -> Turn<S>
    ensures { result.held ≡ held }
{
    let read = held.read_stale();
    let at = script::put_verdict(out, used, read.refusal);
    let at = script::put_bit(out, at, read.stale);
    Turn {
        held,
        used: script::put(out, at, b"\n"),
    }
}

// Number and place, where the part starts in its list, its length, and its numbers.
pub fn point<T: Worded>(
    refusal: Verdict,
    start: usize,
    part: &[T],
    out: &mut [u8],
    used: usize,
) -> usize {
    let at = script::put_verdict(out, used, refusal);
    let at = script::put(out, at, b" ");
    let at = script::put_decimal(out, at, start as u64);
    let at = script::put(out, at, b" ");
    let at = script::put_decimal(out, at, part.len() as u64);
    let at = script::put_numbers(out, at, part, part.len());
    script::put(out, at, b"\n")
}

// Number and place, and a value.
pub fn value<T: Worded>(refusal: Verdict, x: T, out: &mut [u8], used: usize) -> usize {
    let at = script::put_verdict(out, used, refusal);
    let at = script::put_number(out, at, x);
    script::put(out, at, b"\n")
}

fn put_kind<T: Worded>(out: &mut [u8], used: usize, k: Kind<T>) -> usize
    ensures { Shown (put_kind T.format (T.seen Kind k) (page out.old used)) result out.new }
{
    match k {
        Kind::Plain => script::put(out, used, b" p"),
        Kind::Turn(h) => {
            let at = script::put(out, used, b" t");
            script::put_number(out, at, h)
        }
    }
}

fn put_kinds<T: Worded>(out: &mut [u8], used: usize, kinds: &[Kind<T>], n: usize) -> usize
    ensures { Shown (put_kinds T.format (take n (T.seen (λ A. List (Kind A)) kinds.now)) (page out.old used)) result out.new }
{
    let mut at = used;
    for k in &kinds[..n.min(kinds.len())] {
        at = put_kind(out, at, *k);
    }
    at
}

// Of a filter: its size, x, P and Q.
fn put_values<T: Worded>(out: &mut [u8], used: usize, filter: Filter<T>) -> usize
    ensures { Sized filter.sheet.n (put_lists T.format (T.seen Filter filter)) (page out.old used) result out.new }
{
    let n = filter.sheet.n;
    let at = script::put(out, used, b"0 0 n ");
    let at = script::put_decimal(out, at, n as u64);
    let at = put_moments(out, at, filter);
    put_labelled(out, at, b" Q", &filter.sheet.q, checks::square(n))
}

// Of a filter: its parameters and kinds.
fn put_settings<T: Worded>(out: &mut [u8], used: usize, filter: Filter<T>) -> usize
    ensures { Shown (put_settings T.format (T.seen Filter filter) (page out.old used)) result out.new }
{
    let sheet = filter.sheet;
    let at = script::put(out, used, b" par");
    let at = put_params(out, at, sheet.params);
    let at = script::put(out, at, b" kinds");
    put_kinds(out, at, &sheet.kinds, sheet.n)
}

// Of a filter: its first two weights, points and stale mark.
fn put_current<T: Worded>(out: &mut [u8], used: usize, filter: Filter<T>) -> usize
    ensures { Shown (put_current T.format (T.seen Filter filter) (page out.old used)) result out.new }
{
    let n = filter.sheet.n;
    let at = put_labelled(out, used, b" w", &filter.track.weights, 2);
    let at = put_labelled(
        out,
        at,
        b" pts",
        &filter.track.points,
        checks::point_numbers(n, n),
    );
    let at = script::put(out, at, b" stale");
    script::put_bit(out, at, filter.track.stale)
}

// Of a filter: what is open, and what that has drawn.
fn put_drawn<T: Worded>(out: &mut [u8], used: usize, filter: Filter<T>) -> usize
    ensures { Shown (put_drawn T.format (T.seen Filter filter) (page out.old used)) result out.new }
{
    let n = filter.sheet.n;
    let at = script::put_stage(out, used, filter.track.stage);
    let at = put_labelled(out, at, b" dw", &filter.track.drawn_weights, 2);
    put_labelled(
        out,
        at,
        b" dpts",
        &filter.track.drawn_points,
        checks::point_numbers(n, n),
    )
}

// Of a filter: the used places of all but the way a call is open and what a stepped one keeps.
pub fn put_filter<T: Worded>(out: &mut [u8], used: usize, filter: Filter<T>) -> usize
    ensures { FilterShown T.format (T.seen Filter filter) (page out.old used) result out.new }
{
    let at = put_values(out, used, filter);
    let at = put_settings(out, at, filter);
    let at = put_current(out, at, filter);
    put_drawn(out, at, filter)
}

// How many numbers the images so far have: n each, or in a correction the m that the first has named.
fn image_numbers<T: Copy>(n: usize, kept: Kept<T>) -> usize
    ensures { result ≡ kept_numbers n kept.at kept.m }
{
    if kept.m == 0 {
        return script::times(kept.at, n);
    }
    script::times(kept.at, kept.m)
}

// How far a stepped call is, whether the point that is due has been asked for, and its m.
fn put_progress<T: Copy>(out: &mut [u8], used: usize, kept: Kept<T>) -> usize
    ensures { Progressed kept.at kept.asked kept.m Shown (page out.old used) result out.new }
{
    let at = script::put(out, used, b" at ");
    let at = script::put_decimal(out, at, kept.at as u64);
    let at = script::put(out, at, b" asked");
    let at = script::put_bit(out, at, kept.asked);
    let at = script::put(out, at, b" m ");
    script::put_decimal(out, at, kept.m as u64)
}

// Of a filter: which way a call is open, and what a stepped one keeps.
pub fn put_kept<T: Worded>(out: &mut [u8], used: usize, filter: Filter<T>) -> usize
    ensures { KeptShown T.format (T.seen Filter filter) (page out.old used) result out.new }
{
    let track = filter.track;
    let kept = track.kept;
    let k = image_numbers(filter.sheet.n, kept);
    let at = script::put_way(out, used, track.stage);
    let at = put_progress(out, at, kept);
    put_labelled(out, at, b" img", &kept.images, k)
}

// All of a filter, the used places only.
pub fn dump<S: Subject>(held: S, out: &mut [u8], used: usize) -> Turn<S>
    ensures { result.held ≡ held }
{
    let at = held.put_all(out, used);
    Turn {
        held,
        used: script::put(out, at, b"\n"),
    }
}
