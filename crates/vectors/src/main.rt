// Reads records on standard input and writes a line of answer to each. A record is a word that says what to run, then the words that this takes;
// a word is 16 hex digits and a newline. An unknown first word or a bad word is answered `bad` and ends the run, as the end of the input does. A read or a write that fails ends it with that error.
// An answer is a refusal, or 0, and its place, where what is run can be refused, then its numbers, each after a space. vectors/make.py writes what it reads here and what it must answer.
#![tactic(auto)]

ghost use Rattle.std.specs.Prelude.{◌≡◌, ◌≤◌, length, IfOk};
ghost use Rattle.vectors.specs.Lines.{line_of};

use angles::Kind;
use floats::{Refusal, Verdict};
use matrix::pivots::Pivots;
use matrix::{factor, inverse, product, sums};
use sigma::{Moments, Params, draw, predict, weights};
use std::io;
use std::io::Read;

// The word on a line.
fn word_of(line: &[u8; 17]) -> Option<u64>
    ensures { result ≡ line_of line.now }
{
    if line[16] != b'\n' {
        return None;
    }
    words::word_at::<f64>(line, 0)
}

// Reads until bytes is full or the input ends; how many bytes were put at its front.
fn read_full(input: &mut impl Read, bytes: &mut [u8]) -> io::Result<usize>
    ensures { IfOk result (λ n. n ≤ length bytes.new) }
{
    let mut done = 0usize;
    while done < bytes.len() {
        let got = input.read(&mut bytes[done..])?;
        if got == 0 {
            return Ok(done);
        }
        done += got;
    }
    Ok(done)
}

// The word that the next 17 bytes of the input are.
fn next_word(input: &mut impl Read) -> io::Result<Option<u64>> {
    let mut line = [0u8; 17];
    if read_full(input, &mut line)? != 17 {
        return Ok(None);
    }
    Ok(word_of(&line))
}

// The next word of the input, as a float.
fn next_number(input: &mut impl Read) -> io::Result<Option<f64>> {
    let Some(b) = next_word(input)? else {
        return Ok(None);
    };
    Ok(Some(words::float_of(b)))
}

// The next k words of the input, as floats at the front of out, which has room for them; whether they are all words.
fn fill(input: &mut impl Read, out: &mut [f64], k: usize) -> io::Result<bool> {
    if out.len() < k {
        return Ok(false);
    }
    for x in &mut out[..k] {
        let Some(number) = next_number(input)? else {
            return Ok(false);
        };
        *x = number;
    }
    Ok(true)
}

// The next word of the input, as a count of at most `most`; 0 where it is none.
fn next_count(input: &mut impl Read, most: u64) -> io::Result<u64>
    ensures { IfOk result (λ n. n ≤ most) }
{
    let Some(b) = next_word(input)? else {
        return Ok(0);
    };
    if b > most {
        return Ok(0);
    }
    Ok(b)
}

// How many cells so many rows of so many have.
fn cells(rows: usize, columns: usize) -> usize
    requires { (rows ≤ 8) × (columns ≤ 8) }
    ensures { result ≤ 64 }
{
    rows * columns
}

// How many numbers the points of n states have, m a point.
fn points(n: usize, m: usize) -> usize
    requires { (n ≤ 8) × (m ≤ 8) }
    ensures { result ≤ 136 }
{
    (n + n + 1) * m
}

// One byte of an answer.
fn put_byte(rt: &impl Print, c: u8) -> io::Result<()> {
    let text = [c];
    rt.write_all(&text)
}

// The number and the place of a refusal, or 0 where there is none.
fn put_verdict(rt: &impl Print, refused: Option<Refusal>) -> io::Result<()> {
    let Verdict { number, place } = match refused {
        Some(refusal) => refusal.verdict(),
        None => floats::placeless(0),
    };
    print!(rt; "{number} {place}")
}

// A space and the word of x.
fn put_number(rt: &impl Print, x: f64) -> io::Result<()> {
    print!(rt; " {:016x}", words::bits_of(x))
}

// The first k numbers of s, as far as it has them.
fn put_numbers(rt: &impl Print, s: &[f64], k: usize) -> io::Result<()> {
    for x in &s[..k.min(s.len())] {
        put_number(rt, *x)?;
    }
    Ok(())
}

// The end of a record's answer: the run goes on.
fn end_line(rt: &impl Print) -> io::Result<bool> {
    put_byte(rt, b'\n')?;
    Ok(true)
}

// The answer to what is no record: the run ends.
fn say_bad(rt: &impl Print) -> io::Result<bool> {
    rt.write_all(b"bad\n")?;
    Ok(false)
}

// 1: the root of a number.
fn answer_root(rt: &impl Print, input: &mut impl Read) -> io::Result<bool> {
    let Some(a) = next_number(input)? else {
        return say_bad(rt);
    };
    match root::square_root(a) {
        Ok(v) => {
            put_verdict(rt, None)?;
            put_number(rt, v)?;
        }
        Err(refusal) => put_verdict(rt, Some(refusal))?,
    }
    end_line(rt)
}

// 2: the wrap of d by h.
fn answer_wrap(rt: &impl Print, input: &mut impl Read) -> io::Result<bool> {
    let Some(d) = next_number(input)? else {
        return say_bad(rt);
    };
    let Some(h) = next_number(input)? else {
        return say_bad(rt);
    };
    let w = angles::wrap(d, h);
    put_verdict(rt, w.err())?;
    put_number(rt, angles::shown(w))?;
    end_line(rt)
}

// 3: the factor of a matrix of P (7) or of S (8), of n rows.
fn answer_factor(rt: &impl Print, input: &mut impl Read) -> io::Result<bool> {
    let of = if next_count(input, 8)? == 7 {
        Pivots::OfP
    } else {
        Pivots::OfS
    };
    let n = next_count(input, 8)? as usize;
    let mut a = [0.0f64; 64];
    if !fill(input, &mut a, cells(n, n))? {
        return say_bad(rt);
    }
    match factor::cholesky_decompose_lower(&a, n, of) {
        Ok(l) => {
            put_verdict(rt, None)?;
            put_numbers(rt, &l, cells(n, n))?;
        }
        Err(refusal) => put_verdict(rt, Some(refusal))?,
    }
    end_line(rt)
}

// 4: the inverse from a factor of m rows.
fn answer_inverse(rt: &impl Print, input: &mut impl Read) -> io::Result<bool> {
    let m = next_count(input, 8)? as usize;
    let mut l = [0.0f64; 64];
    if !fill(input, &mut l, cells(m, m))? {
        return say_bad(rt);
    }
    let v = inverse::invert_l_cholesky(&l, m);
    put_numbers(rt, &v, cells(m, m))?;
    end_line(rt)
}

// 5: A times the transpose of B, for n rows of d numbers and m rows of d.
fn answer_product(rt: &impl Print, input: &mut impl Read) -> io::Result<bool> {
    let n = next_count(input, 8)? as usize;
    let m = next_count(input, 8)? as usize;
    let d = next_count(input, 8)? as usize;
    let mut a = [0.0f64; 64];
    let mut b = [0.0f64; 64];
    if !fill(input, &mut a, cells(n, d))? {
        return say_bad(rt);
    }
    if !fill(input, &mut b, cells(m, d))? {
        return say_bad(rt);
    }
    let c = product::mult_transb(&a, n, &b, m, d);
    put_numbers(rt, &c, cells(n, m))?;
    end_line(rt)
}

// 6 and 7: a + b and a - b, of k numbers each.
fn answer_sum(rt: &impl Print, input: &mut impl Read, minus: bool) -> io::Result<bool> {
    let k = next_count(input, 64)? as usize;
    let mut a = [0.0f64; 64];
    let mut b = [0.0f64; 64];
    if !fill(input, &mut a, k)? {
        return say_bad(rt);
    }
    if !fill(input, &mut b, k)? {
        return say_bad(rt);
    }
    let c = if minus {
        sums::minus(k, &a, &b)
    } else {
        sums::plus(k, &a, &b)
    };
    put_numbers(rt, &c, k)?;
    end_line(rt)
}

// Three parameters; none where they are not three numbers.
fn next_params(input: &mut impl Read) -> io::Result<Option<Params<f64>>> {
    let mut a = [0.0f64; 3];
    if !fill(input, &mut a, 3)? {
        return Ok(None);
    }
    let [alpha, beta, kappa] = a;
    Ok(Some(Params { alpha, beta, kappa }))
}

// k kinds and then plain ones; none where they are not all there, but all are read. Each is a count, 0 plain or 1 a turn, and a half-turn.
fn next_kinds(input: &mut impl Read, k: usize) -> io::Result<Option<[Kind<f64>; 8]>> {
    let mut kinds = [Kind::Plain; 8];
    if kinds.len() < k {
        return Ok(None);
    }
    let mut whole = true;
    for kind in &mut kinds[..k] {
        let turn = next_count(input, 1)?;
        match next_number(input)? {
            Some(half_turn) if turn == 1 => *kind = Kind::Turn(half_turn),
            Some(_) => {}
            None => whole = false,
        }
    }
    Ok(whole.then_some(kinds))
}

// 8: whether the weights of n states pass 6, then N, w0m, w0c and wi.
fn answer_weights(rt: &impl Print, input: &mut impl Read) -> io::Result<bool> {
    let n = next_count(input, 8)? as usize;
    let Some(params) = next_params(input)? else {
        return say_bad(rt);
    };
    let passes = weights::weights_pass(n, params);
    put_byte(rt, if passes { b'1' } else { b'0' })?;
    let w = weights::compute_weights(n, params);
    put_number(rt, w.scale)?;
    put_number(rt, w.w0m)?;
    put_number(rt, w.w0c)?;
    put_number(rt, w.wi)?;
    end_line(rt)
}

// 9: the points drawn from x and P.
fn answer_draw(rt: &impl Print, input: &mut impl Read) -> io::Result<bool> {
    let n = next_count(input, 8)? as usize;
    let Some(params) = next_params(input)? else {
        return say_bad(rt);
    };
    let mut x = [0.0f64; 8];
    let mut p = [0.0f64; 64];
    if !fill(input, &mut x, n)? {
        return say_bad(rt);
    }
    if !fill(input, &mut p, cells(n, n))? {
        return say_bad(rt);
    }
    match draw::generate_sigma_points(n, &x, &p, weights::scale(n, params)) {
        Ok(drawn) => {
            put_verdict(rt, None)?;
            put_numbers(rt, &drawn, points(n, n))?;
        }
        Err(refusal) => put_verdict(rt, Some(refusal))?,
    }
    end_line(rt)
}

// What a close gives.
fn put_moments(rt: &impl Print, n: usize, made: Result<Moments<f64>, Refusal>) -> io::Result<()> {
    let Moments { x, p } = match made {
        Ok(moments) => moments,
        Err(refusal) => return put_verdict(rt, Some(refusal)),
    };
    put_verdict(rt, None)?;
    put_numbers(rt, &x, n)?;
    if n <= 8 {
        put_numbers(rt, &p, cells(n, n))?;
    }
    Ok(())
}

// 10: x and P from propagated points, the weights those of the parameters.
fn answer_prediction(rt: &impl Print, input: &mut impl Read) -> io::Result<bool> {
    let n = next_count(input, 8)? as usize;
    let params = next_params(input)?;
    let kinds = next_kinds(input, n)?;
    let (Some(params), Some(kinds)) = (params, kinds) else {
        return say_bad(rt);
    };
    let mut q = [0.0f64; 64];
    let mut s = [0.0f64; 136];
    if !fill(input, &mut q, cells(n, n))? {
        return say_bad(rt);
    }
    if !fill(input, &mut s, points(n, n))? {
        return say_bad(rt);
    }
    let w = weights::weights(n, params);
    let r = predict::reconstruct_prediction(
        n,
        &s,
        weights::center_weight(n, params),
        &w,
        &kinds,
        &q,
    );
    put_moments(rt, n, r)?;
    end_line(rt)
}

// 11: x and P from observed points and a measurement, the weights those of the parameters.
fn answer_correction(rt: &impl Print, input: &mut impl Read) -> io::Result<bool> {
    let n = next_count(input, 8)? as usize;
    let m = next_count(input, 4)? as usize;
    let params = next_params(input)?;
    let kinds = next_kinds(input, n)?;
    let measured = next_kinds(input, m)?;
    let (Some(params), Some(kinds), Some(measured)) = (params, kinds, measured) else {
        return say_bad(rt);
    };
    let mut x = [0.0f64; 8];
    let mut p = [0.0f64; 64];
    let mut z = [0.0f64; 8];
    let mut r = [0.0f64; 64];
    let mut s = [0.0f64; 136];
    let mut o = [0.0f64; 136];
    if !fill(input, &mut x, n)? {
        return say_bad(rt);
    }
    if !fill(input, &mut p, cells(n, n))? {
        return say_bad(rt);
    }
    if !fill(input, &mut z, m)? {
        return say_bad(rt);
    }
    if !fill(input, &mut r, cells(m, m))? {
        return say_bad(rt);
    }
    if !fill(input, &mut s, points(n, n))? {
        return say_bad(rt);
    }
    if !fill(input, &mut o, points(n, m))? {
        return say_bad(rt);
    }
    let w = weights::weights(n, params);
    let four = [measured[0], measured[1], measured[2], measured[3]];
    let w0m = weights::center_weight(n, params);
    let q = correction::correct_with_weights_residuals(
        n, m, &x, &p, &s, &o, w0m, &w, &z, &r, &kinds, four,
    );
    put_moments(rt, n, q)?;
    end_line(rt)
}

// The record that a first word starts; whether the run goes on.
fn answer(rt: &impl Print, input: &mut impl Read, tag: u64) -> io::Result<bool> {
    match tag {
        1 => answer_root(rt, input),
        2 => answer_wrap(rt, input),
        3 => answer_factor(rt, input),
        4 => answer_inverse(rt, input),
        5 => answer_product(rt, input),
        6 => answer_sum(rt, input, false),
        7 => answer_sum(rt, input, true),
        8 => answer_weights(rt, input),
        9 => answer_draw(rt, input),
        10 => answer_prediction(rt, input),
        11 => answer_correction(rt, input),
        _ => say_bad(rt),
    }
}

// One record; whether the run goes on.
fn answer_next(rt: &impl Print, input: &mut impl Read) -> io::Result<bool> {
    let mut line = [0u8; 17];
    let got = read_full(input, &mut line)?;
    if got == 0 {
        return Ok(false);
    }
    if got != 17 {
        return say_bad(rt);
    }
    let Some(tag) = word_of(&line) else {
        return say_bad(rt);
    };
    answer(rt, input, tag)
}

// A proved loop has to end, and nothing says that the input does: the turns are counted up to a number that no run reaches.
fn main(rt: HostRuntime) -> io::Result<()> {
    let mut input = rt.reader();
    for _ in 0..u64::MAX {
        if !answer_next(&rt, &mut input)? {
            break;
        }
    }
    Ok(())
}
