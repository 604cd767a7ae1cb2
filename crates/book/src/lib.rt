#![tactic(auto)]

mod book;
mod calls;
mod faults;
mod fixpoint;
mod gather;
mod inquiry;
mod joins;
mod manager;
mod questions;
mod scratch;
mod shortcuts;
mod work;

pub use book::Book;
pub use faults::{BookFault, QuestionFault};
pub use inquiry::Inquiry;
pub use theory::Refusal;
