// Where a point of a list starts.
ghost use Rattle.std.specs.Prelude.{◌≡◌, ◌&&◌, cond, ◌*◌, leb};

// The product of two small numbers.
pub fn times(a: usize, b: usize) -> usize
    ensures { result ≡ cond (leb a 32 && leb b 32) (a * b) 0 }
{
    if a <= 32 && b <= 32 { a * b } else { 0 }
}
