//! A reader of the standard library as a source, and a writer as a sink.
//!
//! Each keeps a count of its faults that is 0 at first (`new`), rises by one at each error and at
//! each write that takes none of some bytes, and stays as it is at every other call (`same`,
//! `error`, `nothing`). At its last value it stays. Nothing is said here of what the system does
//! with the bytes: that is for the reader's and the writer's own contracts, which tell nothing of
//! standard input and output.
#![tactic(auto)]

mod reading;
mod writing;

pub use reading::Reading;
pub use writing::Writing;
