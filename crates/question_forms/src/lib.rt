//! A question as text: read, with its formula in the disjuncts that its form asks.
//!
//! `read_question` reads `[NAME:] FORM`, or gives exactly its first fault (`IsQuestion`,
//! `IsQuestionFault`): of its head, which `question_text` reads, then of its formula's text, then
//! of what the form takes. Never, can and a formula without a form take what is analysed, at end a
//! regular formula; surely takes one whose negation is regular, and always one that is regular or
//! whose negation is analysed (`forms_take`). Laws: each text is a question or has one first fault,
//! and none both (`each_text_is_read_or_has_a_fault`); and each question holds of a run exactly
//! where the answer to its disjuncts says so (`questions_are_answered`).
//!
//! Not said here: whether a log has the names of the formula, and that memory suffices. Questions
//! over processes (`for p q:`) are not read.
#![tactic(auto)]

mod asked;
mod class;
mod laws;
mod nodes;
mod question;

pub use laws::{each_text_is_read_or_has_a_fault, forms_take, questions_are_answered};
pub use question::{Question, QuestionFault, read_question};
