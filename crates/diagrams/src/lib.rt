#![tactic(auto)]

ghost use Rattle.std.specs.Prelude.{◌≡◌};
ghost use Rattle.diagrams.specs.Diagram.{row_hash};
ghost use Rattle.diagrams.specs.Books.{neutral, absorbing};

// A row of a decision diagram: at a position, the numbers of the set's halves without and with it. The halves are numbers and
// not boxes, since rows lie in lent memory and tools hold and compare these numbers.
#[derive(Clone, Copy, PartialEq, Eq, Default)]
pub struct Row {
    pub position: u8,
    pub without: u16,
    pub with: u16,
}

// How two sets are put together.
#[derive(Clone, Copy, PartialEq, Eq)]
pub enum Operation {
    Union,
    Intersection,
}

impl Operation {
    // The number of the set with which it changes no set.
    pub fn neutral(self) -> u16
        ensures { result ≡ neutral self }
    {
        match self {
            Operation::Union => 0,
            Operation::Intersection => 1,
        }
    }

    // The number of the set that it makes of itself and any set.
    pub fn absorbing(self) -> u16
        ensures { result ≡ absorbing self }
    {
        match self {
            Operation::Union => 1,
            Operation::Intersection => 0,
        }
    }
}

// The rows wanted outnumber those there are.
#[derive(Clone, Copy, PartialEq, Eq)]
pub struct NoRoom;

impl register::Row for Row {
    ghost hash = { row_hash };

    fn matches(self, other: Row) -> bool {
        self == other
    }

    // Neighbouring numbers are common: the factors keep them in different buckets.
    fn hash(self) -> u32 {
        self.without as u32 * 3 + self.with as u32 * 613 + self.position as u32 * 1021
    }
}
