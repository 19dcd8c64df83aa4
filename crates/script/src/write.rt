// An answer's text, put piece by piece into lent bytes: at is how many of them are used, and what has no room is left out.
ghost use Rattle.std.specs.Prelude.{◌≡◌, ◌-◌, length, take};
ghost use Rattle.script.specs.Page.{page, put_of, Decimal, Verdicted, bit_text, stage_text, way_text, put_number, put_numbers};

use filter::Stage;
use floats::Verdict;
use words::Worded;

// The bytes of s after those that are used; how many are used then.
pub fn put(out: &mut [u8], at: usize, s: &[u8]) -> usize
    ensures value { result ≡ (put_of s.now (page out.old at)).used }
    ensures out_after { out.new ≡ (put_of s.now (page out.old at)).bytes }
{
    if out.len() < s.len() || out.len() - s.len() < at {
        return at;
    }
    let end = at + s.len();
    out[at..end].copy_from_slice(s);
    end
}

// a - b, or 0.
pub fn less(a: usize, b: usize) -> usize
    ensures { result ≡ a - b }
{
    a.saturating_sub(b)
}

// The first len bytes of s, as far as it has them.
pub fn first(s: &[u8], len: usize) -> &[u8]
    ensures { result.now ≡ take len s.now }
{
    &s[..len.min(s.len())]
}

// As many bytes of s as there is room for, after those that are used; how many are used then.
pub fn gather(line: &mut [u8], at: usize, s: &[u8]) -> usize
    ensures value { result ≡ (put_of (take (length line.old - at) s.now) (page line.old at)).used }
    ensures line_after { line.new ≡ (put_of (take (length line.old - at) s.now) (page line.old at)).bytes }
{
    let room = less(line.len(), at);
    put(line, at, first(s, room))
}

// A number in decimal.
pub fn put_decimal(out: &mut [u8], at: usize, n: u64) -> usize
    ensures { Decimal n (page out.old at) result out.new }
{
    let mut text = [0u8; 20];
    let k = io::decimal(n, &mut text);
    put(out, at, &text[..k])
}

// A refusal, or 0, with its place.
pub fn put_verdict(out: &mut [u8], at: usize, v: Verdict) -> usize
    ensures { Verdicted v (page out.old at) result out.new }
{
    let next = put_decimal(out, at, u64::from(v.number));
    let next = put(out, next, b" ");
    put_decimal(out, next, v.place as u64)
}

// A blank and a bit.
pub fn put_bit(out: &mut [u8], at: usize, b: bool) -> usize
    ensures value { result ≡ (put_of (bit_text b) (page out.old at)).used }
    ensures out_after { out.new ≡ (put_of (bit_text b) (page out.old at)).bytes }
{
    put(out, at, if b { b" 1" } else { b" 0" })
}

// What is open.
pub fn put_stage(out: &mut [u8], at: usize, stage: Stage) -> usize
    ensures value { result ≡ (put_of (stage_text stage) (page out.old at)).used }
    ensures out_after { out.new ≡ (put_of (stage_text stage) (page out.old at)).bytes }
{
    match stage {
        Stage::Shut => put(out, at, b" open -"),
        Stage::Predicting | Stage::PredictingStepped => put(out, at, b" open p"),
        Stage::Correcting | Stage::CorrectingStepped => put(out, at, b" open c"),
    }
}

// Which way it was opened: with the whole point list, or for one point at a time.
pub fn put_way(out: &mut [u8], at: usize, stage: Stage) -> usize
    ensures value { result ≡ (put_of (way_text stage) (page out.old at)).used }
    ensures out_after { out.new ≡ (put_of (way_text stage) (page out.old at)).bytes }
{
    match stage {
        Stage::Shut => put(out, at, b" way -"),
        Stage::Predicting | Stage::Correcting => put(out, at, b" way w"),
        Stage::PredictingStepped | Stage::CorrectingStepped => put(out, at, b" way s"),
    }
}

// A blank and the hex digits of a float's bits.
pub fn put_number<T: Worded>(out: &mut [u8], at: usize, x: T) -> usize
    ensures value { result ≡ (put_number T.format (T.float x) (page out.old at)).used }
    ensures out_after { out.new ≡ (put_number T.format (T.float x) (page out.old at)).bytes }
{
    let mut text = [0u8; 16];
    let k = io::hex(words::bits_of(x), T::DIGITS, &mut text);
    let next = put(out, at, b" ");
    put(out, next, &text[..k])
}

// The first k floats of s, as far as it has them.
pub fn put_numbers<T: Worded>(out: &mut [u8], at: usize, s: &[T], k: usize) -> usize
    ensures value { result ≡ (put_numbers T.format (take k (T.floats s.now)) (page out.old at)).used }
    ensures out_after { out.new ≡ (put_numbers T.format (take k (T.floats s.now)) (page out.old at)).bytes }
{
    let mut next = at;
    for x in &s[..k.min(s.len())] {
        next = put_number(out, next, *x);
    }
    next
}
