//! The summary of a bench: how large the log is that was made, and what the report on it says.
//!
//! `write_summary` gives the one text that the sizes and the report have; the number of workers is
//! no part of it. That the report is so of the log is said where the report is made. Nothing is
//! said of the memory that a call takes.
#![tactic(auto)]

mod writing;

pub use writing::write_summary;
