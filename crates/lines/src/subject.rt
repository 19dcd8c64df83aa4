// What the calls of a line are on: a filter, or the filter and the pair that are held together.
use angles::Kind;
use filter::point::Spaced;
use filter::{ParamsRead, StaleRead};
use floats::Verdict;
use root::Rooted;
use script::{Marks, Name};
use sigma::Params;

// What a call has left, with the answer's number and place.
#[derive(Clone, Copy)]
pub struct Done<S> {
    pub held: S,
    pub refusal: Verdict,
}

// What a line's lists and kinds are read into. They are lent to what is written for any width, which cannot tell that arrays of its numbers fit in memory.
#[derive(Drop)]
pub struct Buffers<T> {
    pub first: [T; 512],
    pub second: [T; 512],
    pub third: [T; 512],
    pub kinds: [Kind<T>; 4],
}

pub trait Subject: Copy {
    type Float: Marks + Rooted + Spaced;

    // new: another filter.
    fn renewed(
        self,
        n: usize,
        x: &[Self::Float],
        p: &[Self::Float],
        q: &[Self::Float],
        params: Params<Self::Float>,
    ) -> Done<Self>;

    // A call that is lent a list, a buffer, a measurement.
    fn with_list(self, name: Name, list: &[Self::Float]) -> Done<Self>;

    fn with_buffer(self, name: Name, buffer: &mut [Self::Float]) -> Done<Self>;

    fn with_measurement(
        self,
        name: Name,
        m: usize,
        z: &[Self::Float],
        r: &[Self::Float],
        kinds: &[Kind<Self::Float>; 4],
        observed: &[Self::Float],
    ) -> Done<Self>;

    fn set_params(self, params: Params<Self::Float>) -> Done<Self>;

    fn set_kind(self, i: usize, kind: Kind<Self::Float>) -> Done<Self>;

    fn abandon(self) -> Done<Self>;

    fn read_params(self) -> ParamsRead<Self::Float>;

    fn read_stale(self) -> StaleRead;

    // x and P, and all of the filter, put after the bytes of out that are used; how many are used then.
    fn put_moments(self, out: &mut [u8], used: usize) -> usize;

    fn put_all(self, out: &mut [u8], used: usize) -> usize;
}
