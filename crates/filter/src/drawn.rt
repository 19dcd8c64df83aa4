// What an open call has drawn, beside the track as it was.
ghost use Rattle.std.specs.Prelude.{◌≡◌};
ghost use Rattle.filter.specs.Filters.{nothing_kept, with_drawn, shut};

use crate::{Kept, Stage, Track};
use floats::Number;

// No image is in.
pub fn nothing_kept<T: Number>() -> Kept<T>
    ensures { T.seen Kept result ≡ nothing_kept }
{
    Kept {
        at: 0,
        asked: false,
        m: 0,
        images: [T::ZERO; 136],
    }
}

// At a stage, with the weights and points that have been drawn; nothing is kept yet.
pub fn with_drawn<T: Number>(
    t: Track<T>,
    stage: Stage,
    weights: [T; 17],
    points: [T; 136],
) -> Track<T>
    ensures { T.seen Track result ≡ with_drawn (T.seen Track t) stage (record { weights = T.floats weights; points = T.floats points }) }
{
    Track {
        stage,
        drawn_weights: weights,
        drawn_points: points,
        kept: nothing_kept(),
        ..t
    }
}

// Nothing open, scratch at +0.
pub fn shut<T: Number>(t: Track<T>) -> Track<T>
    ensures { T.seen Track result ≡ shut (T.seen Track t) }
{
    let weights = [T::ZERO; 17];
    let points = [T::ZERO; 136];
    with_drawn(t, Stage::Shut, weights, points)
}
