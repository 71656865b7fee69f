//! Channels: the messages between two processes of a run, counted along both, and bounds on their
//! number as pulls.
//!
//! `counts` gives the sends and receipts after each number of events of the two processes. By their
//! clauses `pulls`, `at_most` and `at_least` are one stated table each, made by the definition of
//! the least number that passes a test; by `fit` it is a pull of the run's shape, and by `closed` a
//! vector keeps it exactly where the counts say so. `bounds_hold_where_they_are_true` takes that to
//! the formulas of the run, both ways: at most `k` always, at least `k` where no channel has more
//! receipts than sends at a consistent cut. `channel_pulls_grow` says that no entry falls when more
//! events come. Nothing is said of want of memory but that the call answers it.
#![tactic(auto)]

mod channel;
mod counted;
mod laws;
mod positions;

pub use channel::{Channel, at_least, at_most, counts};
pub use laws::{bounds_hold_where_they_are_true, channel_pulls_grow};
