ghost use Rattle.terms.specs.Faults.{term_fault_number};

use theory::Refusal;

// Why a term was not added.
#[derive(Clone, Copy, Debug, PartialEq, Eq)]
pub enum TermFault {
    TooManyArguments = 1,
    NoEarlierTerm = 2,
    UnusedNotZero = 3,
    TableFull = 4,
}

impl Refusal for TermFault {
    ghost number = { term_fault_number };

    fn number(self) -> u8 {
        self as u8
    }
}
