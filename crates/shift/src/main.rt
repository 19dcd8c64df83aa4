// shift FILE: replays the script of calls on standard input from the filter whose record FILE holds, and writes the record of the filter that is left back to FILE.
// shift FILE first: the first shift, from the empty filter; FILE must not be there yet.
// Answers go to standard output, as those of `replay`. What becomes of the record is told on standard error: where it can't be written FILE stays as it was, and where it can't be read no call is replayed.
// Where the script can't be read to its end or an answer can't be written, the program ends with that error, and FILE stays as it was.
#![tactic(auto)]

ghost use Rattle.std.specs.Prelude.{◌≤◌, length};

use filter::{Answer, Filter};
use lines::held;
use std::env::{Env, FillError};
use std::fs::Files;
use std::random::RandomSource;
use std::{io, str};

mod files;
mod told;

// The filter that the script leaves of this one.
fn replayed(rt: &(impl Input + Print), from: Answer<f64>) -> io::Result<Filter<f64>> {
    let start = held::alone(lines::start(), from);
    let held = start.held;
    let left = runs::run(rt, held)?;
    Ok(left.filter)
}

// The record of what the shift leaves.
fn save(rt: &(impl Files + RandomSource + Eprint), path: &str, filter: Filter<f64>) {
    let mut record = [0u8; 4096];
    let refusal = records::save(filter, &mut record);
    if refusal.number != 0 {
        told::not_saved(rt, path, refusal);
        return;
    }
    let len = records::record_length(filter.sheet.n);
    if !files::replace(rt, path, script::first(&record, len)) {
        told::kept(rt, path);
        return;
    }
    told::written(rt, path);
}

// The script from this filter on, and then the record; none where the script can't be read or an answer can't be written.
fn replay<R: Files + RandomSource + Input + Print + Eprint>(
    rt: &R,
    path: &str,
    from: Answer<f64>,
) -> io::Result<()> {
    match replayed(rt, from) {
        Ok(filter) => {
            save(rt, path, filter);
            Ok(())
        }
        Err(e) => {
            told::kept(rt, path);
            Err(e)
        }
    }
}

// A shift that goes on from a record.
fn next<R: Files + RandomSource + Input + Print + Eprint>(rt: &R, path: &str) -> io::Result<()> {
    let mut record = [0u8; 4096];
    let Some(len) = files::read(rt, path, &mut record) else {
        told::not_replayed(rt);
        return Ok(());
    };
    let start = records::load(script::first(&record, len));
    let refusal = start.refusal;
    if refusal.number != 0 {
        told::not_loaded(rt, path, refusal);
        told::not_replayed(rt);
        return Ok(());
    }
    replay(rt, path, start)
}

// The first shift: a load of no bytes gives the empty filter.
fn first<R: Files + RandomSource + Input + Print + Eprint>(rt: &R, path: &str) -> io::Result<()> {
    if !files::is_missing(rt, path) {
        told::not_replayed(rt);
        return Ok(());
    }
    replay(rt, path, records::load(b""))
}

// Whether there is an argument of that number.
fn has_arg(rt: &impl Env, i: usize) -> bool {
    !matches!(rt.arg(i, &mut []), Err(FillError::NotPresent))
}

// How many arguments there are, the program's own name among them; 4 where there are more.
fn arg_count(rt: &impl Env) -> usize {
    (0..4).find(|i| !has_arg(rt, *i)).unwrap_or(4)
}

// The argument of that number at the front of bytes; how long it is, or 0 where it is missing or has no room.
fn arg(rt: &impl Env, i: usize, bytes: &mut [u8]) -> usize
    ensures { result ≤ length bytes.new }
{
    rt.arg(i, bytes).unwrap_or(0)
}

// One word after FILE at most, and that one is `first`. A name that is not UTF-8 names no file here.
fn shift<R: Files + RandomSource + Env + Input + Print + Eprint>(
    rt: &R,
    path: &[u8],
    word: &[u8],
) -> io::Result<()> {
    let count = arg_count(rt);
    let is_first = count == 3 && script::same_bytes(word, b"first");
    if count != 2 && !is_first {
        told::usage(rt);
        return Ok(());
    }
    let Ok(path) = str::from_utf8(path) else {
        told::no_name(rt);
        told::not_replayed(rt);
        return Ok(());
    };
    if is_first {
        return first(rt, path);
    }
    next(rt, path)
}

fn main(rt: HostRuntime) -> io::Result<()> {
    let mut path = [0u8; 4096];
    let of_path = arg(&rt, 1, &mut path);
    let mut word = [0u8; 4096];
    let of_word = arg(&rt, 2, &mut word);
    shift(&rt, &path[..of_path], &word[..of_word])
}
