//! What the words of a command line ask: in which form the log comes, how many steps of a witness
//! are shown, and which words are questions.
//!
//! `asked_by` gives exactly what is stated of the words (`asked_by`): the options are before the
//! questions, each at most once, and behind them are 1 to 64 questions. Worked rows are in
//! `specs/Worked.antt`.
//!
//! Not said here: whether a question can be read.
#![tactic(auto)]

mod asking;

pub use asking::{Asked, asked_by};
pub use log_input::Form;
