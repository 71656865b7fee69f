//! The trace of a log without a formula, as the items of the log come.
//!
//! `LogTrace::take_all` takes items of a log behind those before, up to their first fault. Without
//! one all are judged so far by the rules of `log_rules`, where no name is looked up and no
//! variable is a counter, and the trace has the states of the log after its closed batches (`ok`);
//! else it answers exactly the fault that is due there (`fault`).
//!
//! Not said: how much memory there is, how long a call takes, and what stands after a fault or want
//! of memory.
#![tactic(auto)]

mod trace;

pub use trace::LogTrace;
