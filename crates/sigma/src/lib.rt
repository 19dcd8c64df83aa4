// Sigma points: the parameters and weights, the draw, the anchored mean, the spread, and the prediction made of them.
#![tactic(auto)]

ghost use Rattle.std.specs.Prelude.{◌≡◌, ◌+◌, ◌*◌, ◌<◌, ◌≤◌};

pub mod draw;
pub mod mean;
pub mod predict;
pub mod spread;
pub mod weights;

// The three parameters.
#[derive(Clone, Copy)]
pub struct Params<T> {
    pub alpha: T,
    pub beta: T,
    pub kappa: T,
}

// What a close makes: x and P.
#[derive(Clone, Copy)]
pub struct Moments<T> {
    pub x: [T; 8],
    pub p: [T; 64],
}

// Where number i of point k stands, the points having d numbers each.
pub fn place(k: usize, d: usize, i: usize) -> usize
    requires { (k < 17) × (d ≤ 8) × (i < d) }
    ensures { (result ≡ k * d + i) × (result < 136) }
{
    k * d + i
}
