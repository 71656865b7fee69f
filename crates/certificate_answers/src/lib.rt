//! The answer to an inquiry for the certificate of a formula on a log that is read.
//!
//! `answer_certificate` reads the log to its end, checks it with no watches, and writes the
//! canonical certificate of the formula on the whole of it. It says that what was read and written,
//! and how it ended, is what a run promises: nothing is written before the end of the log, or where
//! a fault is due of it; a certificate that could not be written leaves a front of it; and the
//! verdict is the truth at the initial cut.
//!
//! *Not said here*: that memory suffices.
#![tactic(auto)]

mod certifying;

pub use batch_answers::{ReportedLog, check_all, faulty, outcome_of};
pub use certifying::answer_certificate;
