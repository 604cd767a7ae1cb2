ghost use Rattle.records.specs.Faults.{record_fault_number};

use theory::Refusal;

// Why a record was refused.
#[derive(Clone, Copy, Debug, PartialEq, Eq)]
pub enum RecordFault {
    TooManyPredicates = 9,
    TooManyGoals = 10,
    Cut = 16,
    UnknownLetter = 17,
    NotZero = 18,
    WrongRelation = 19,
    TooManyAnswers = 20,
}

impl Refusal for RecordFault {
    ghost number = { record_fault_number };

    fn number(self) -> u8 {
        self as u8
    }
}
