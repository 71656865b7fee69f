//! What is written of questions that were asked of a run: a document of the Test Anything Protocol,
//! version 14.
//!
//! `put_question` has the one text of a question that was asked of the log (`question_rows`). Below
//! a question that doesn't hold stands, as YAML, what was found against it: where it is, and the
//! last steps that lead there. Below an answer that says nothing of the run stand the parts of the
//! formula that hold nowhere. `put_over` has the one text of a question that was asked of processes
//! (`over_rows`): below its line how many instances it was asked of, or how many of these fail and
//! what was found against the first of them. Law: the lines that begin with no space are the
//! version, the plan, and for each question in its order one line that says `ok` exactly where the
//! question holds (`a_line_for_each_question`).
//!
//! Not said here: what a question comes to (`question_outcome` says when an outcome is that of a
//! question), and that memory suffices.
#![tactic(auto)]

mod block;
mod documents;
mod indented;
mod laws;
mod nowhere;
mod over;
mod question;

pub use documents::{put_head, put_question};
pub use laws::a_line_for_each_question;
pub use over::{OverQuestion, put_over};
pub use question::{AskedQuestion, AskedRun};
