//! A view of a run as one call: a log and reports of it in, the view of the last one out.
//!
//! `view`, for every source, sinks and words: what was read and written, and what the outcome says
//! of them (`viewed`). Without a fault the input is a log of which no fault is due and, at once
//! behind its `end` line, the texts of reports one behind the other, of which the last is one of
//! the log; and what was written is the view of these two that was asked for: the text of
//! `view_text`, or the picture of `view_picture`. With a fault nothing was written, and it is the
//! fault of the words, the first that is due of the log by `log_rules`, the fault of the reports'
//! text, or that the last report has other processes or other lengths than the log; after a write
//! fault a front of the view was written. A read or write fault comes only where that object's
//! count of faults rose. The line on `diag` is the fault's (`told`).
//!
//! The log is judged as one without a formula: no name is looked up in it, and none of its
//! variables is a counter. It is judged as it comes, up to its first fault, and of the input only
//! what comes behind it is kept. No more than 1 GiB is read.
//!
//! Not said: that memory suffices, and how long a call takes.
#![tactic(auto)]

mod asking;
mod fault;
mod input;
mod telling;
mod top;
mod viewing;

pub use asking::View;
pub use fault::Fault;
pub use top::{Viewed, view};
