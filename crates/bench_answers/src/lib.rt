//! The answer to a bench: a log is made, checked at once, and its summary written.
//!
//! `answer_bench` reads nothing. It says that what was written, and how it ended, is what a run
//! promises: the summary of the log that is made, or the first name of the formula that this log
//! lacks; no other fault is due of it. A summary that could not be written leaves a front of it.
//!
//! *Not said here*: that memory suffices, and how long a bench takes.
#![tactic(auto)]

mod bench;

pub use bench::answer_bench;
