//! A log with its clocks filled in, as its items come.
//!
//! `FilledLog::take_all` takes the first items of a log up to their first fault, and
//! `FilledLog::take_log` a log of one batch. Without a fault they are judged so far by the rules of
//! `log_rules` without a formula, and the closed batches are kept, each clock that the text leaves
//! out filled in (`ok`); else the answer is exactly the fault that is due there (`fault`).
//! `FilledLog::into_log` gives their log: it has a text, and no fault of its clocks and messages.
//!
//! Not said: how much memory there is, how long a call takes, and what stands after a fault or want
//! of memory.
#![tactic(auto)]

mod filling;

pub use filling::{Begun, FilledLog};
