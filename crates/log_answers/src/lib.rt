//! The reports on a log that is checked item by item, written as its batches are closed.
//!
//! `Checking` takes items by `reported_log` and writes the report of each batch that has one before
//! it takes the next item (`take_all`), the report on the log as far as it was closed (`report`),
//! and the summary of a bench (`sum_up`). A log that stands whole, in one batch, is taken at once
//! (`take_whole`), and its report written (`check_whole`). A stop says how many batches were closed
//! before it, and its cause: a refusal is the one that `log_rules` has due of the items, behind the
//! reports that are due before it; where a report could not be written a front of it was; where
//! there was no memory what was written is a front of what is due.
//!
//! *Not said here*: where items come from, and that memory suffices.
#![tactic(auto)]

mod checking;
mod stop;
mod whole;

pub use checking::Checking;
pub use reported_log::{CheckedLog, Means, ReportedLog};
pub use stop::{Stop, StopCause, Verdict};
