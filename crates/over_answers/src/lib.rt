//! What the questions over processes among those of a call come to, on one observation of a log.
//!
//! `answer_overs` gives for each question, in their order, the tally of its instances, if it is one
//! over processes (`AreTallies`), or exactly the first of them that has none, with its number and
//! why (`IsFirstStop`). `without_watches` gives the observation that they are answered on: what was
//! observed, without what watches answered, since no question over processes names one.
//!
//! Not said here: that memory suffices, nor how long a call takes.
#![tactic(auto)]

mod answering;
mod bare;

pub use answering::{NumberedStop, Tallied, answer_overs};
pub use bare::without_watches;
pub use instance_outcomes::{AskFault, OverStop};
