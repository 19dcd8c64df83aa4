// Point k of a lent list: that part of the list itself, and a sister call that gives number and place.
ghost use Rattle.std.specs.Prelude.{◌≡◌};
ghost use Rattle.filter.specs.Point.{part_of, part_start, point_refusal, point_of, point_start};

use crate::checks;
use floats::{Number, Verdict};

// Numbers of which a list has one after the other, as many bytes each as their format says. Generic code doesn't know how many a value takes, so each width says where a part of a list begins: from place a up to e, and where the list hasn't those places, an empty part at its beginning.
pub trait Spaced: Number {
    fn part(list: &[Self], a: usize, e: usize) -> &[Self]
        ensures value { result.now ≡ part_of list.now a e }
        ensures start { result.ref_ptr ≡ part_start list.now a e Self.format list.entry.ref_ptr };
}

impl Spaced for f64 {
    fn part(list: &[f64], a: usize, e: usize) -> &[f64] {
        if a <= e && e <= list.len() {
            &list[a..e]
        } else {
            &list[..0]
        }
    }
}

impl Spaced for f32 {
    fn part(list: &[f32], a: usize, e: usize) -> &[f32] {
        if a <= e && e <= list.len() {
            &list[a..e]
        } else {
            &list[..0]
        }
    }
}

pub fn point_refusal<T: Number>(list: &[T], n: usize, k: usize) -> Verdict
    ensures { result ≡ point_refusal T.format (T.floats list.now) n k }
{
    let sized = checks::is_sized(n) && k <= checks::last_point(n);
    let numbers = checks::point_numbers(n, n);
    checks::early_refusal(true, sized, numbers <= list.len(), false)
}

pub fn point<T: Spaced>(list: &[T], n: usize, k: usize) -> &[T]
    ensures result_value { T.floats result.now ≡ point_of T.format (T.floats list.now) n k }
    ensures ref_ptr_value { result.ref_ptr ≡ point_start T.format (T.floats list.now) n k list.entry.ref_ptr }
{
    let refusal = point_refusal(list, n, k);
    if refusal.number != 0 {
        return T::part(list, 0, 0);
    }
    let a = k * n;
    T::part(list, a, a + n)
}
