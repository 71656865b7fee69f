//! Questions over a growing trace: one observation for a list of them.
//!
//! `observe_list` looks up the names of a list of questions in a header, puts the operators of
//! their forms over their parts, and opens one observation for all (`observed`), or answers the
//! first name that is unknown, with the number of its question (`fault`). Laws: the observation
//! stays that of the list as batches are taken (`a_list_stays_observed`), and its answer is one of
//! the list, by which `asked_answers` tells whether each question holds (`an_answer_is_the_lists`).
//!
//! Not said here: that memory suffices.
#![tactic(auto)]

mod laws;
mod observing;
mod unknown;

pub use laws::{a_list_stays_observed, an_answer_is_the_lists};
pub use observing::{ObservedList, observe_list};
pub use unknown::UnknownName;
