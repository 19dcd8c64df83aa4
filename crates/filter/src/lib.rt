// The filter and its calls.
#![tactic(auto)]

ghost use Rattle.std.specs.Prelude.{◌≡◌, ⊤};

use angles::Kind;
use floats::{Number, Verdict};
use sigma::Params;
use std::alloc::AllocError;

pub mod checks;
pub mod closes;
mod drawn;
mod fronts;
mod measurement;
pub mod new;
pub mod opens;
pub mod point;
pub mod readings;
pub mod setters;
mod tests;

// What is open, and which way: with the whole point list, or one point at a time.
#[derive(Clone, Copy, Debug, PartialEq, Eq)]
pub enum Stage {
    Shut,
    Predicting,
    Correcting,
    PredictingStepped,
    CorrectingStepped,
}

// The points of a filter with their weights.
#[derive(Clone, Copy)]
pub struct Weighted<T> {
    pub weights: [T; 17],
    pub points: [T; 136],
}

// The settings sheet: how many states, process noise, parameters and residual kinds. Flat arrays sized for 8 states; unused places hold +0, unused kinds are plain.
#[derive(Copy)]
pub struct Sheet<T> {
    pub n: usize,
    pub q: [T; 64],
    pub params: Params<T>,
    pub kinds: [Kind<T>; 8],
}

// Written out, since no proof is found that a derived one, kind by kind, refuses only where a kind's does.
impl<T: Copy> Clone for Sheet<T> {
    ghost is_clone = { λ x y. y ≡ x };

    ghost is_infallible = { λ x. ⊤ };

    fn clone(&self) -> Result<Sheet<T>, AllocError> {
        Ok(*self)
    }
}

// What a stepped call keeps, up to 2n+1 images of n numbers or of m: how many images are in, whether the point after them has been asked for, the m that a correction's first image has named (0 before, and in a prediction), and the images, one after the other.
#[derive(Clone, Copy)]
pub struct Kept<T> {
    pub at: usize,
    pub asked: bool,
    pub m: usize,
    pub images: [T; 136],
}

// The rest of a filter: its state and covariance, current points and weights, what is open, what that has drawn and what it keeps. Unused places hold +0; while nothing is open, so does scratch, what an open call has drawn and keeps.
#[derive(Clone, Copy)]
pub struct Track<T> {
    pub x: [T; 8],
    pub p: [T; 64],
    pub weights: [T; 17],
    pub points: [T; 136],
    pub stale: bool,
    pub stage: Stage,
    pub drawn_weights: [T; 17],
    pub drawn_points: [T; 136],
    pub kept: Kept<T>,
}

// A filter: a track on a sheet.
#[derive_where(Clone, Copy; T: Copy)]
pub struct Filter<T> {
    pub sheet: Sheet<T>,
    pub track: Track<T>,
}

impl<T: Number> Filter<T> {
    // An answer with this filter.
    fn answer(self, refusal: Verdict) -> Answer<T>
        ensures { result ≡ record { filter = self; refusal = refusal } }
    {
        Answer {
            filter: self,
            refusal,
        }
    }
}

// The next filter with the answer's number and place.
#[derive_where(Clone, Copy; T: Copy)]
pub struct Answer<T> {
    pub filter: Filter<T>,
    pub refusal: Verdict,
}

// What a reading of the parameters answers.
#[derive(Clone, Copy)]
pub struct ParamsRead<T> {
    pub refusal: Verdict,
    pub params: Params<T>,
}

// What a reading of the stale mark answers.
#[derive(Clone, Copy)]
pub struct StaleRead {
    pub refusal: Verdict,
    pub stale: bool,
}
