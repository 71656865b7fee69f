//! The answers to a log that comes in batches, read piece by piece.
//!
//! `read_log` reads a log to its end and checks it as it comes: what is due of the bytes that were
//! read is written before more are read, and it ends at the first fault that is due of them, at a
//! read or write that failed, or where memory ran out. `check_all` also writes the report on the
//! whole log, and says that the answer is the one that the reading of a log's text has due of the
//! bytes that were read; a read fault is answered only where the bytes before it have no fault.
//! `outcome_of` tells how a run ended that led to a verdict or a stop.
//!
//! *Not said here*: that memory suffices, and how the bytes are cut into pieces.
#![tactic(auto)]

mod checking;
mod outcome;
mod reading;

pub use checking::check_all;
pub use log_answers::{CheckedLog, ReportedLog};
pub use outcome::{faulty, outcome_of};
pub use reading::read_log;
