//! A log that is taken item by item into what is observed of it.
//!
//! Behind the header (`LogIntake::open`, with an observation before its first batch) the events
//! come one after another (`add`) or a batch of them at once (`add_all`), and a line closes a batch
//! or the log (`close`): the batch is judged by the rules of `log_rules` and taken whole (`ok`), or
//! exactly the fault that is due there is answered (`fault`). Which names a header lacks, which of
//! its variables are counters and what its watches answer are terms (`Terms` of
//! `specs/Taking.antt`): a log without a formula has none of them, and is taken by the same calls.
//!
//! `LogIntake::observation` has the log as it was observed up to the last closed batch, and
//! `into_observation` hands it over.
//!
//! Nothing is said of the time or the memory that a call takes, nor of what stands after want of
//! memory.
#![tactic(auto)]

mod intake;

pub use intake::LogIntake;
pub use observation::Observation;
