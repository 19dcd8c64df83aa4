// Two filters of one size on one settings sheet.
#![tactic(auto)]

use filter::{Sheet, Track};
use floats::Verdict;

pub mod closes;
pub mod new;
pub mod opens;
pub mod readings;
pub mod setters;
mod sides;
pub mod steps;

// One sheet and two tracks. A track with the sheet is a filter, and a call on a side is that filter's own call; but a change of the sheet is taken only while neither side has a call open, and reaches both.
#[derive(Clone, Copy)]
pub struct Pair {
    pub sheet: Sheet<f64>,
    pub first: Track<f64>,
    pub second: Track<f64>,
}

// The side that a call is on.
#[derive(Clone, Copy)]
pub enum Side {
    First,
    Second,
}

// The next pair with the answer's number and place.
#[derive(Clone, Copy)]
pub struct PairAnswer {
    pub pair: Pair,
    pub refusal: Verdict,
}
