// What is told on standard error, each a line: what failed, with its number, and what became of the record.
// Where standard error can't be written to, nothing is told, and all else goes on.
use arrayvec::ArrayString;
use floats::Verdict;
use std::fmt::Write;
use std::io;

fn tell(rt: &impl Eprint, s: &str) {
    let _ = rt.eprint(s);
}

pub fn usage(rt: &impl Eprint) {
    tell(
        rt,
        "shift FILE [first] <SCRIPT: goes on from the filter whose record FILE holds, or starts the first record\n",
    );
}

pub fn no_name(rt: &impl Eprint) {
    tell(rt, "FILE is no name: it is not UTF-8\n");
}

pub fn not_replayed(rt: &impl Eprint) {
    tell(rt, "no call was replayed\n");
}

// What a name comes to.
fn of_file(rt: &impl Eprint, path: &str, s: &str) {
    tell(rt, path);
    tell(rt, s);
}

pub fn there_already(rt: &impl Eprint, path: &str) {
    of_file(
        rt,
        path,
        ": there already, so this is not the first shift\n",
    );
}

pub fn kept(rt: &impl Eprint, path: &str) {
    of_file(
        rt,
        path,
        ": the record is not written, what was there is as it was\n",
    );
}

pub fn written(rt: &impl Eprint, path: &str) {
    of_file(rt, path, ": the record is written\n");
}

fn tell_number(rt: &impl Eprint, n: u64) {
    let _ = rt.eprint(n);
}

// The words for an error, without its number.
fn tell_words(rt: &impl Eprint, error: io::Error) {
    let mut text = ArrayString::<256>::new();
    let _ = write!(text, "{error}");
    match text.as_str().split_once(" (os error ") {
        Some((words, _)) => tell(rt, words),
        None => tell(rt, text.as_str()),
    }
}

// The number and the words of what has failed on a file; the number is 0 where it was not the system that failed.
pub fn failed(rt: &impl Eprint, path: &str, error: io::Error) {
    tell(rt, "error ");
    let number = error.raw_os_error().unwrap_or(0);
    tell_number(rt, u64::try_from(number).unwrap_or(0));
    tell(rt, ": ");
    of_file(rt, path, ": ");
    tell_words(rt, error);
    tell(rt, "\n");
}

// Which of a record's numbers isn't finite.
fn tell_slice(rt: &impl Eprint, number: u8) {
    match number {
        51 => tell(rt, " NUMBER: a state isn't finite"),
        52 => tell(rt, " NUMBER: a covariance isn't finite"),
        53 => tell(rt, " NUMBER: noise isn't finite"),
        _ => tell(rt, " NUMBER: a parameter or half-turn isn't finite"),
    }
}

fn tell_load(rt: &impl Eprint, number: u8) {
    match number {
        1 => tell(rt, " SIZE: not 1 to 8 states"),
        2 => tell(rt, " SHORT: the record is cut"),
        6 => tell(
            rt,
            " PARAM: weights can't be made of the parameters, or a half-turn isn't above 0 or is too large",
        ),
        12 => tell(rt, " RECORD: not a record"),
        _ => tell_slice(rt, number),
    }
}

fn tell_save(rt: &impl Eprint, number: u8) {
    match number {
        1 => tell(rt, " SIZE: the filter is empty"),
        3 => tell(rt, " STAGE: a call is open"),
        _ => tell(
            rt,
            " FRESH: not stale, since the last prediction no correction and nothing set but Q",
        ),
    }
}

fn tell_place(rt: &impl Eprint, place: usize) {
    tell(rt, " (place ");
    tell_number(rt, place as u64);
    tell(rt, ")\n");
}

// The record can't be loaded.
pub fn not_loaded(rt: &impl Eprint, path: &str, refusal: Verdict) {
    of_file(rt, path, ": ");
    let number = refusal.number;
    tell_number(rt, u64::from(number));
    tell_load(rt, number);
    tell_place(rt, refusal.place);
}

// The filter can't be saved.
pub fn not_saved(rt: &impl Eprint, path: &str, refusal: Verdict) {
    of_file(rt, path, ": ");
    let number = refusal.number;
    tell_number(rt, u64::from(number));
    tell_save(rt, number);
    tell_place(rt, refusal.place);
    kept(rt, path);
}
