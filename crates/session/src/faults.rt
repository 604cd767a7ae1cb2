ghost use Rattle.std.specs.Prelude.{◌≡◌};
ghost use Rattle.session.specs.declared.faults.Fault.TheVariants.{Record as ofRecord, Term as ofTerm, Theory as ofTheory, Fact as ofFact, Question as ofQuestion};
ghost use Rattle.session.specs.Faults.{fault_number};

use book::QuestionFault;
use records::RecordFault;
use terms::TermFault;
use theory::{FactFault, Refusal, TheoryFault};

// Why a record was refused: by a check of its own, or by the call below it, whose fault is held whole.
#[derive(Clone, Copy, PartialEq, Eq)]
pub enum Fault {
    Record(RecordFault),
    Term(TermFault),
    Theory(TheoryFault),
    Fact(FactFault),
    Question(QuestionFault),
}

impl Refusal for Fault {
    ghost number = { fault_number };

    fn number(self) -> u8 {
        match self {
            Fault::Record(fault) => fault.number(),
            Fault::Term(fault) => fault.number(),
            Fault::Theory(fault) => fault.number(),
            Fault::Fact(fault) => fault.number(),
            Fault::Question(fault) => fault.number(),
        }
    }
}

// The kit's derive `thiserror` writes a `From` without a contract, and clauses name the fault that a `?` makes: so each
// conversion is written out.
impl From<RecordFault> for Fault {
    ghost from_gives = { λ fault r. r ≡ ofRecord fault };

    fn from(fault: RecordFault) -> Fault {
        Fault::Record(fault)
    }
}

impl From<TermFault> for Fault {
    ghost from_gives = { λ fault r. r ≡ ofTerm fault };

    fn from(fault: TermFault) -> Fault {
        Fault::Term(fault)
    }
}

impl From<TheoryFault> for Fault {
    ghost from_gives = { λ fault r. r ≡ ofTheory fault };

    fn from(fault: TheoryFault) -> Fault {
        Fault::Theory(fault)
    }
}

impl From<FactFault> for Fault {
    ghost from_gives = { λ fault r. r ≡ ofFact fault };

    fn from(fault: FactFault) -> Fault {
        Fault::Fact(fault)
    }
}

impl From<QuestionFault> for Fault {
    ghost from_gives = { λ fault r. r ≡ ofQuestion fault };

    fn from(fault: QuestionFault) -> Fault {
        Fault::Question(fault)
    }
}
