//! A log that is taken for a formula as its items come.
//!
//! `LogCheck::take` judges one item more, by the rules of `log_rules`: it goes on (`ok`), or
//! answers exactly the refusal that is due there (`fault`). At the header the names of the formula
//! are looked up; all else is `log_intake`'s. `LogCheck::take_log` takes a whole log of one batch,
//! its events at once, and leads to what its items lead to. The formula is not answered.
//!
//! `LogCheck::observation` has the log as it was observed up to the last closed batch, and
//! `LogCheck::into_observed` hands it over, with the formula by the numbers of its header
//! (`CheckedLog`), on which it is true exactly where it is true of the log.
//!
//! Nothing is said of the time or the memory that a call takes, nor of what stands after want of
//! memory.
#![tactic(auto)]

mod check;
mod checked;

pub use check::LogCheck;
pub use checked::CheckedLog;
