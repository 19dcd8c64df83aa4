// The same prediction and correction again and again, to be timed from outside (docs/RUNS.md). Reads how many rounds, a word of 16 hex digits and a newline,
// and writes the bits of x after them: for 8 states with 4 measurements, then for 3 with 2. oracle/src/bin/paces.rs does the same with the published Rust.
#![tactic(auto)]

use angles::Kind;
use filter::Filter;
use sigma::Params;
use std::io;
use std::io::{ErrorKind, Read};

// Numbers from 0 to 15 in a fixed disorder.
fn numbers(step: u64) -> [f64; 136] {
    let mut out = [0.0f64; 136];
    let mut v = 1u64;
    for x in &mut out {
        v = (v % 16 + step % 16) % 16;
        *x = v as f64;
    }
    out
}

// n rows of n numbers, x on the diagonal and 0 elsewhere.
fn diagonal(n: usize, x: f64) -> [f64; 64] {
    let mut out = [0.0f64; 64];
    for i in (0..64).step_by(n.saturating_add(1)) {
        out[i] = x;
    }
    out
}

// One prediction and one correction.
fn round(
    f: Filter<f64>,
    m: usize,
    propagated: &[f64; 136],
    observed: &[f64; 136],
    r: &[f64; 64],
    kinds: [Kind<f64>; 4],
) -> Filter<f64> {
    let mut out = [0.0f64; 136];
    let a = f.open_prediction(&mut out);
    let opened = a.filter;
    let b = opened.close_prediction(propagated);
    let predicted = b.filter;
    let c = predicted.open_correction(&mut out);
    let asked = c.filter;
    let d = asked.close_correction(m, observed, r, kinds, observed);
    d.filter
}

// So many rounds of a prediction and a correction on a filter of n states.
fn run(n: usize, m: usize, rounds: u64) -> Filter<f64> {
    let propagated = numbers(7);
    let observed = numbers(5);
    let p = diagonal(n, 4.0);
    let q = diagonal(n, 1.0);
    let r = diagonal(m, 12.0);
    let params = Params {
        alpha: 1.0,
        beta: 0.0,
        kappa: 1.0,
    };
    let kinds = [Kind::Plain; 4];
    let made = Filter::new(n, &propagated, &p, &q, params);
    let mut f = made.filter;
    for _ in 0..rounds {
        f = round(f, m, &propagated, &observed, &r, kinds);
    }
    f
}

// The first k numbers of s, as far as it has them, a line each.
fn put(rt: &impl Print, s: &[f64], k: usize) -> io::Result<()> {
    for x in &s[..k.min(s.len())] {
        println!(rt; "{:016x}", words::bits_of(*x))?;
    }
    Ok(())
}

// Reads until line is full or the input ends.
fn read_line(input: &mut impl Read, line: &mut [u8; 17]) -> io::Result<()> {
    match input.read_exact(line) {
        Err(e) if e.kind() != ErrorKind::UnexpectedEof => Err(e),
        _ => Ok(()),
    }
}

fn main(rt: HostRuntime) -> io::Result<()> {
    let mut line = [0u8; 17];
    read_line(&mut rt.reader(), &mut line)?;
    let Some(rounds) = words::word_at::<f64>(&line, 0) else {
        return Ok(());
    };
    let large = run(8, 4, rounds);
    let x = large.track.x;
    put(&rt, &x, 8)?;
    let small = run(3, 2, rounds);
    let y = small.track.x;
    put(&rt, &y, 3)
}
