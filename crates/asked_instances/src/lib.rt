//! A question over processes, asked of the processes of a log.
//!
//! `instances` gives the texts of the question with the names of each two processes, or of each
//! one, in the order of the header, of which the log has all names (`AreInstances`). The others are
//! left out, since a process that lacks a variable is none of those that are meant. `Fault` is that
//! of the first text that is no question (`fault`).
//!
//! Not said here: that memory suffices, nor that there is any such text.
#![tactic(auto)]

mod asking;
mod known;

pub use asking::{Asked, Instance, Pair, instances};
