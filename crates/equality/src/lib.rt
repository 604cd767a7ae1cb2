#![tactic(auto)]

use register::Row;

// A term: a symbol, how many arguments it has, and the numbers of these, of which an unused one is 0. An unused argument is no
// `Option`, since a term with one that is not 0 can be asked for, and is refused.
#[derive(Clone, Copy, PartialEq, Eq, Default)]
pub struct Term {
    pub symbol: u16,
    pub arity: u8,
    pub left: u8,
    pub right: u8,
}

// Terms as rows of a register.
impl Row for Term {
    ghost hash = { λ t. t.symbol };

    fn matches(self, other: Self) -> bool {
        self == other
    }

    fn hash(self) -> u32 {
        self.symbol as u32
    }
}
