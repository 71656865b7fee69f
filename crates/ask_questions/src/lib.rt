//! The questions of a command line, of both kinds, read.
//!
//! `read_questions` reads at most 64 texts: those that are asked of the log into one list in their
//! order, so that they are observed together, and of those over processes the names that stand for
//! these (`CanBeObserved`); or it gives exactly the first fault (`IsFirstFault`) with the
//! question's number: first come the questions, each by itself and in their order, then that the
//! disjuncts or parts up to some question are too many.
//!
//! Not said here: whether a log has the names of the questions, and that memory suffices.
#![tactic(auto)]

mod observable;
mod reading;

pub use over_questions::EntryFault;
pub use reading::{AskedQuestions, NumberedFault, QuestionsFault, read_questions};
