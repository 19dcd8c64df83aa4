// The points that a stepped call has drawn, the images that are in, and the next one taken in after them.
ghost use Rattle.std.specs.Prelude.{◌≡◌, ◌≤◌, ◌+◌, length, drop};
ghost use Rattle.std.proofs.Math.Seq.{paste};
ghost use Rattle.floats.specs.Refusal.{taken};
ghost use Rattle.filter.specs.Filters.{filter, with_kept};
ghost use Rattle.filter.specs.Calls.{handed_in};

use filter::{Answer, Filter, Kept, Track};

// k numbers of s from place a on, into d from place b on; the rest of d stays.
pub fn copy(s: &[f64], a: usize, k: usize, d: &mut [f64], b: usize)
    requires { (a + k ≤ length s.now) × (b + k ≤ length d.old) }
    ensures { d.new ≡ paste d.old b (drop a s.now) k }
{
    d[b..b + k].copy_from_slice(&s[a..a + k]);
}

// An image of d numbers is in, with the m that it names, and the next point is to be asked for.
pub fn take_in(f: Filter<f64>, m: usize, d: usize, image: &[f64]) -> Answer<f64>
    requires { (d ≤ 8) × (f.track.kept.at ≤ 16) × (d ≤ length image.now) }
    ensures { result ≡ record { filter = filter f.sheet (with_kept f.track (handed_in f.track.kept m d image.now)); refusal = taken } }
{
    let at = f.track.kept.at;
    let mut images = f.track.kept.images;
    copy(image, 0, d, &mut images, at * d);
    let kept = Kept {
        at: at + 1,
        asked: false,
        m,
        images,
    };
    let track = Track { kept, ..f.track };
    Answer {
        filter: Filter { track, ..f },
        refusal: floats::placeless(0),
    }
}
