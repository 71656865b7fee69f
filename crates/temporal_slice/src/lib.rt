//! What EF, AG, EG and EX make of a slice (Sen and Garg, on finite runs).
//!
//! Of a slice that stands for a closed set of cuts, `ef` stands for the consistent cuts from which
//! some path ends in the set, `ag` for those from which each cut of every path is in it, and `eg`
//! for those from which some path to the final cut stays in it (clauses `stands` and `cuts`); each
//! of these sets is closed under minimum and maximum (`closed`). The clauses speak of the slice's
//! own cuts, and `operators_of_a_set` takes them to any closed set that the slice stands for.
//! EX of a process needs no slice: `ex_pulls` gives its pulls, and `ex_fans` the same side by side.
//! A consistent cut is closed under them exactly where the cut with the process's next event is one
//! of the child's (`closed`). Nothing is said of the time or the memory that a call takes.
#![tactic(auto)]

mod always;
mod behind_next;
mod cuts;
mod laws;
mod possible;
mod raised;
mod staying_in;

pub use always::ag;
pub use behind_next::{ex_fans, ex_pulls};
pub use laws::operators_of_a_set;
pub use possible::ef;
pub use slice_graph::Slice;
pub use staying_in::eg;
