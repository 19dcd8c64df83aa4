// Where rows and cells stand in a flat array.
ghost use Rattle.std.specs.Prelude.{◌≡◌, ◌+◌, ◌*◌, ◌<◌, ◌≤◌};

// Where row i of rows of n starts.
pub fn row(i: usize, n: usize) -> usize
    requires { (i < 8) × (n ≤ 8) }
    ensures { (result ≡ i * n) × (result + n ≤ 64) }
{
    i * n
}

// Where column j of row i of rows of d stands.
pub fn cell(i: usize, d: usize, j: usize) -> usize
    requires { (i < 8) × (d ≤ 8) × (j < d) }
    ensures { (result ≡ i * d + j) × (result < 64) }
{
    row(i, d) + j
}
