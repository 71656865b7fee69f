//! The document of what the questions of a call come to: those that are asked of the log, by a
//! list, and those over processes, by their tallies.
//!
//! `document_of` gives the one text that these have (`document` of `ask_text`), and whether each
//! question holds (`all_hold`).
//!
//! Not said here: what a question comes to, and that memory suffices.
#![tactic(auto)]

mod documents;
mod entries;
mod overs;

pub use documents::{Came, Document, document_of};
