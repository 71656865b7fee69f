//! The log that a text of two-line records is: a host and its vector clock, a JSON object, on one
//! line, and a description on the next.
//!
//! `import` gives exactly that log (`ok`), where the text has no fault (`faultless`), or exactly
//! the first fault (`fault`). Laws: events are ordered as the clocks count them
//! (`counters_are_the_order`); the log may be handed on (`imported_logs_fit`); no more than
//! 67,108,865 bytes need be read (`long_texts_are_faulty`).
//!
//! Not said: that the log's clocks have no fault, how much memory there is, and how long a call
//! takes.
#![tactic(auto)]

mod clock;
mod events;
mod host_lines;
mod hosts;
mod importing;
mod laws;
mod names;
mod rows;
mod scanning;

pub use fault_kinds::{ImportCode, ImportFault};
pub use importing::import;
pub use laws::{counters_are_the_order, imported_logs_fit, long_texts_are_faulty};
