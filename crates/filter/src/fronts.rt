// Numbers from a lent slice into a fixed array, and from an array to the front of a lent buffer.
ghost use Rattle.std.specs.Prelude.{◌≡◌, ◌≤◌, length};
ghost use Rattle.floats.specs.Numbers.{zeros};
ghost use Rattle.floats.specs.Fronts.{front};

use floats::Number;

// The first k numbers of s to the front of d; the rest of d stays.
pub fn copy_front<T: Copy>(s: &[T], k: usize, d: &mut [T])
    requires { (k ≤ length s.now) × (k ≤ length d.old) }
    ensures { d.new ≡ front k s.now d.old }
{
    d[..k].copy_from_slice(&s[..k]);
}

// The first k numbers of s, then +0: a vector, a matrix or a point list.
pub fn filled<T: Number, const N: usize>(s: &[T], k: usize) -> [T; N]
    requires { (k ≤ length s.now) × (k ≤ N) }
    ensures { T.floats result ≡ front k (T.floats s.now) (zeros N) }
{
    let mut d = [T::ZERO; N];
    copy_front(s, k, &mut d);
    d
}
