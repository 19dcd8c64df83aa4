// Pivots, and what the steps of a factor are refused by.
ghost use Rattle.std.specs.Prelude.{◌≡◌};
ghost use Rattle.matrix.specs.Factor.{refused_by};

use floats::Refusal;

// Whose pivots a factor has: those of P or those of S.
#[derive(Clone, Copy)]
pub enum Pivots {
    OfP,
    OfS,
}

// What refuses a bad pivot, with its row.
pub fn refused_by(of: Pivots, row: usize) -> Refusal
    ensures { result ≡ refused_by of row }
{
    match of {
        Pivots::OfP => Refusal::Pivot(row),
        Pivots::OfS => Refusal::Innovation(row),
    }
}
