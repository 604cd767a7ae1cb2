#![tactic(auto)]

mod faults;
mod line;
mod pending;
mod record;

pub use faults::RecordFault;
pub use line::{Line, answer_line, refusal_line};
pub use pending::Pending;
pub use record::{Record, Relation, Statement, TheoryName, read};
pub use theory::Refusal;
