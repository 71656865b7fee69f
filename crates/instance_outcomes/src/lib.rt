//! What a question over processes comes to: the outcomes of its instances, on one observation of a
//! log.
//!
//! `answer_over` puts processes of the log into a question, where they have the names that it uses,
//! and gives the tally of these instances (`IsTallyFor`), or says why there is none (`IsOverStop`).
//! `tally` answers each instance by itself on what was observed, in their order, and keeps of them
//! how many there are, how many fail, in how many some part holds nowhere, and all of the first one
//! that fails, or else of the first (`IsTally`). Each outcome is by `IsOutcome` of
//! `question_outcome`; those that are not shown are let go, since a witness can be as long as the
//! log. Laws: no instance fails exactly where each holds (`none_fails_where_each_holds`), and the
//! instances of a question over processes are such as are answered (`instances_are_known`).
//!
//! Not said here: that memory suffices, nor how long a call takes.
#![tactic(auto)]

mod answering;
mod asking;
mod counting;
mod laws;
mod over;
mod tallied;

pub use answering::tally;
pub use asking::{AskFault, InstanceFault};
pub use laws::{instances_are_known, none_fails_where_each_holds};
pub use over::{OverStop, answer_over};
pub use tallied::{Answered, Tally};
