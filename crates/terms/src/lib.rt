#![tactic(auto)]

mod equal;
mod faults;
mod numbering;
mod table;

pub use equal::{Equality, Relation};
pub use faults::TermFault;
pub use table::TermTable;
pub use theory::Refusal;
