//! A whole log that is observed for a list of questions, and the watches that are handed in.
//!
//! `observe_log` looks up the names of the questions in the log and takes all of its batches, so
//! that each question can be answered on it (`observed`), or tells why not (`stopped`): the first
//! name that the log does not have, or the first event that leaves a counter of the questions lower
//! than it was. A log that was read is such as it takes (`read_logs_are_observed`).
//!
//! Not said here: that memory suffices.
#![tactic(auto)]

mod laws;
mod log;
mod observing;

pub use asked_observation::{ObservedList, UnknownName};
pub use laws::read_logs_are_observed;
pub use log::{Stop, observe_log};
