//! Watches: local predicates of the user's own, each with a state of its own, and the three that
//! the program hands in.
//!
//! What a watch says of states fed to it in order is its `answers`: feeding gives the first of them
//! and leaves those of the rest (`Watch::feed`, `feed_one`). `Stable`, `Owing` and `Calm` answer
//! true exactly where their definitions in `specs/Answering.antt` hold (`new` of each). Feeding
//! takes no memory and refuses nothing.
#![tactic(auto)]

mod calm;
mod owing;
mod predicate;
mod stable;

pub use calm::Calm;
pub use owing::Owing;
pub use predicate::{Handed, Watch, feed_one};
pub use stable::Stable;
