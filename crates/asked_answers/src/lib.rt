//! Whether a question holds, by one answer to the disjuncts of many questions.
//!
//! The asked disjuncts of several questions are one formula, which is observed and answered once
//! (`asked_lists_are_made_for_the_header`). `holds` tells from the answer's parts whether one of
//! the questions holds, by its range: exactly where a question that was read and listed holds of
//! the run (clause `listed`), and so for whichever disjuncts spell the formula that a form asks of
//! (clause `holds`).
//!
//! Not said here: that memory suffices.
#![tactic(auto)]

mod holding;
mod laws;

pub use holding::holds;
pub use laws::asked_lists_are_made_for_the_header;
