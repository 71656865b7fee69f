//! The text of a question: where its name ends, which words of a form it begins with, and where its
//! formula begins.
//!
//! `read_head` gives exactly what is stated of each text (`head_of`): the head of the question, or
//! its first fault, with its place and so with what was expected there. Each text has one of both.
//! Worked rows are in `specs/Worked.antt`.
//!
//! Not said here: whether the rest of the text is a formula.
#![tactic(auto)]

mod bytes;
mod front;
mod head;
mod name;

pub use bytes::{Class, run_of};
pub use front::{Asking, behind_word, names_process};
pub use head::{Head, HeadCode, HeadFault, LONGEST_QUESTION, Span, read_head};
