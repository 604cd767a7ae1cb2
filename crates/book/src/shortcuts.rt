ghost use Rattle.std.specs.Prelude.{◌≡◌, T, ◌≢◌};
ghost use Rattle.diagrams.specs.Applying.{row_with, Shortens};

use diagrams::{Operation, Row};

// The number of a union or an intersection that asks for no row.
pub(crate) fn short(op: Operation, a: u16, b: u16) -> Option<u16>
    ensures { Shortens op a b result }
{
    let (neutral, absorbing) = (op.neutral(), op.absorbing());
    if a == b || b == neutral || a == absorbing {
        return Some(a);
    }
    if a == neutral || b == absorbing {
        return Some(b);
    }
    None
}

// Whether two halves are one set, so that no row is asked for.
pub(crate) fn merge(without: u16, with: u16) -> bool
    ensures yes { T result → without ≡ with }
    ensures not { (T result → ⊥) → without ≢ with }
{
    without == with
}

// The row of a set, from the numbers of its halves at a position.
pub(crate) fn row_of(position: u8, without: u16, with: u16) -> Row
    ensures { result ≡ row_with position without with }
{
    let (low, high) = (without, with);
    Row {
        position,
        without: low,
        with: high,
    }
}
