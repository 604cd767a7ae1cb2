ghost use Rattle.book.specs.Faults.{book_fault_number};
ghost use Rattle.book.specs.Questions.{question_fault_number};

use theory::Refusal;

// Why a reading or a join was refused.
#[derive(Clone, Copy, Debug, PartialEq, Eq)]
pub enum BookFault {
    Full = 13,
    NotHeld = 14,
}

impl Refusal for BookFault {
    ghost number = { book_fault_number };

    fn number(self) -> u8 {
        self as u8
    }
}

// Why a question or an abstraction was refused.
#[derive(Clone, Copy, Debug, PartialEq, Eq)]
pub enum QuestionFault {
    TooManyPredicates = 9,
    TooManyGoals = 10,
    NoFact = 11,
    ShortWork = 12,
    Full = 13,
}

impl Refusal for QuestionFault {
    ghost number = { question_fault_number };

    fn number(self) -> u8 {
        self as u8
    }
}
