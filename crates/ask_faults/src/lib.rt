//! Why there is no answer to questions: the status of each fault, and the lines that tell of it.
//!
//! `tell` writes where a fault is, what stands there, what was expected and an example (`told`):
//! byte for byte the lines of `specs/Lines.antt`, `specs/Helps.antt` and `specs/Faults.antt`. The
//! lines that say where a fault is take memory. Where there is none it tells of the want of it, and
//! says so (`same`).
#![tactic(auto)]

mod fault;
mod help;
mod lines;
mod telling;

pub use ask_questions::{NumberedFault, QuestionsFault};
pub use asked_observation::UnknownName;
pub use fault::Fault;
pub use over_answers::NumberedStop;
pub use telling::tell;
