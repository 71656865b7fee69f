//! A log that is checked item by item, and the reports behind its batches.
//!
//! `ReportedLog::take` judges one item more, by the rules of `log_rules`: it goes on (`ok`), or
//! answers exactly the refusal that is due there (`fault`). `ReportedLog::take_log` takes a log of
//! one batch that stands whole, without a list of its items. Behind a batch `ReportedLog::report`
//! has the report on the log so far, which `run_report` states (`says`), and it has a text
//! (`fits`). A batch that has no report is observed alone, and its answer is never made.
//!
//! `ReportedLog::into_observed` hands over what was observed of the log up to the last closed
//! batch, with the formula.
//!
//! Nothing is said of the time or the memory that a call takes, nor of what stands after want of
//! memory.
#![tactic(auto)]

mod reported;

pub use answering::Means;
pub use log_check::CheckedLog;
pub use reported::ReportedLog;
