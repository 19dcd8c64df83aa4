// A script of calls on standard input, run on a filter, on a pair and on a filter at f32, with the answers on standard output: what the programs `replay` and `shift` share.
// The input is read in pieces; a line is gathered from them and answered, and what the answers gather is written once the lines of a piece are done.
#![tactic(auto)]

use filter::Filter;
use lines::answers;
use lines::held::Held;
use script::Name;
use std::io;
use std::io::Read;

#[cfg(test)]
mod tests;

// What the lines so far have left: the filter and the pair, the f32 filter, and how many bytes of answers wait.
#[derive(Clone, Copy)]
struct Left {
    held: Held,
    narrow: Filter<f32>,
    used: usize,
}

// What the lines so far have left, how many bytes of the line that is being read are there, and whether the input goes on.
#[derive(Clone, Copy)]
struct Progress {
    left: Left,
    line: usize,
    going: bool,
}

fn start(held: Held) -> Progress {
    Progress {
        left: Left {
            held,
            narrow: lines::start_narrow(),
            used: 0,
        },
        line: 0,
        going: true,
    }
}

// @w CALL
fn on_narrow(left: Left, s: &[u8], at: usize, out: &mut [u8]) -> Left {
    let turn = lines::answer_narrow(left.narrow, s, at, out, left.used);
    Left {
        narrow: turn.held,
        used: turn.used,
        ..left
    }
}

// Every other line.
fn on_wide(left: Left, name: Name, s: &[u8], at: usize, out: &mut [u8]) -> Left {
    let turn = lines::answer(left.held, name, s, at, out, left.used);
    Left {
        held: turn.held,
        used: turn.used,
        ..left
    }
}

// The answer to the call on a line, up to its comment; none where there is no token.
fn code(left: Left, s: &[u8], out: &mut [u8]) -> Left {
    if script::no_token(s, 0) {
        return left;
    }
    let call = script::call_at(s, 0);
    match call.name {
        Name::Narrow => on_narrow(left, s, call.next, out),
        name => on_wide(left, name, s, call.next, out),
    }
}

// A line that is too long is no call.
fn too_long(left: Left, out: &mut [u8]) -> Left {
    let turn = answers::bad(left.held, out, left.used);
    Left {
        held: turn.held,
        used: turn.used,
        ..left
    }
}

// The answer to the line that the first len bytes of line are.
fn answer(left: Left, line: &[u8], len: usize, out: &mut [u8]) -> Left {
    if 16384 < len {
        return too_long(left, out);
    }
    code(left, script::code(script::first(line, len)), out)
}

// Writes what waits.
fn flush(rt: &impl Print, out: &[u8], used: usize) -> io::Result<usize> {
    rt.write_all(script::first(out, used))?;
    Ok(0)
}

// Writes what waits where it may leave no room for another answer.
fn make_room(rt: &impl Print, out: &[u8], used: usize) -> io::Result<usize> {
    if used < 32768 {
        return Ok(used);
    }
    flush(rt, out, used)
}

// Answers a line that has come to its end.
fn end_line(rt: &impl Print, run: Progress, line: &[u8], out: &mut [u8]) -> io::Result<Progress> {
    let mut left = answer(run.left, line, run.line, out);
    left.used = make_room(rt, out, left.used)?;
    Ok(Progress {
        left,
        line: 0,
        ..run
    })
}

// What a piece has of a line, after what is there of it; an ended line is answered.
fn take_line(
    rt: &impl Print,
    run: Progress,
    part: &[u8],
    ended: bool,
    line: &mut [u8],
    out: &mut [u8],
) -> io::Result<Progress> {
    let next = Progress {
        line: script::gather(line, run.line, part),
        ..run
    };
    if ended {
        end_line(rt, next, line, out)
    } else {
        Ok(next)
    }
}

// The lines of a piece; what is left of it is the start of the next line.
fn take_piece(
    rt: &impl Print,
    run: Progress,
    piece: &[u8],
    line: &mut [u8],
    out: &mut [u8],
) -> io::Result<Progress> {
    let mut next = run;
    for text in piece.split_inclusive(|c| *c == b'\n') {
        next = match text.strip_suffix(b"\n") {
            Some(whole) => take_line(rt, next, whole, true, line, out)?,
            None => take_line(rt, next, text, false, line, out)?,
        };
    }
    Ok(next)
}

// Reads a piece and answers its lines, or, at the end of the input, a last line without its newline.
fn read_piece(
    rt: &impl Print,
    input: &mut impl Read,
    run: Progress,
    piece: &mut [u8],
    line: &mut [u8],
    out: &mut [u8],
) -> io::Result<Progress> {
    let got = input.read(piece)?;
    if got == 0 {
        let mut last = end_line(rt, run, line, out)?;
        last.left.used = flush(rt, out, last.left.used)?;
        last.going = false;
        return Ok(last);
    }
    let mut next = take_piece(rt, run, script::first(piece, got), line, out)?;
    next.left.used = flush(rt, out, next.left.used)?;
    Ok(next)
}

// The whole script, from what is held before its first line to what is held after its last; the f32 filter is empty at first.
// A read or a write that fails ends it there, and what the lines so far have left is gone.
// A proved loop has to end, and nothing says that the input does: the turns are counted up to a number that no run reaches.
pub fn run(rt: &(impl Input + Print), held: Held) -> io::Result<Held> {
    let mut input = rt.reader();
    let mut piece = [0u8; 65536];
    let mut line = [0u8; 16385];
    let mut out = [0u8; 65536];
    let mut run = start(held);
    for _ in 0..u64::MAX {
        if !run.going {
            break;
        }
        run = read_piece(rt, &mut input, run, &mut piece, &mut line, &mut out)?;
    }
    Ok(run.left.held)
}
