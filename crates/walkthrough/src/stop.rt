use book::{BookFault, QuestionFault};
use std::io;
use terms::TermFault;
use theory::{FactFault, Refusal, TheoryFault};
use thiserror::Error;

// Why the walkthrough stopped: a call was refused, or a line was not printed.
#[derive(Debug, Drop, Error)]
pub enum Stop {
    #[error("refused {}", .0.number())]
    Term(#[from] TermFault),
    #[error("refused {}", .0.number())]
    Theory(#[from] TheoryFault),
    #[error("refused {}", .0.number())]
    Fact(#[from] FactFault),
    #[error("refused {}", .0.number())]
    Question(#[from] QuestionFault),
    #[error("refused {}", .0.number())]
    Book(#[from] BookFault),
    #[error(transparent)]
    Printing(#[from] io::Error),
}
