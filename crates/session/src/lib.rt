#![tactic(auto)]

mod answers;
mod faults;
mod progress;
mod session;
mod stated;

pub use faults::Fault;
pub use progress::Progress;
pub use session::Session;
pub use theory::Refusal;
