//! A pure machine that raises bounds of closed vectors, one word at a time.
#![tactic(auto)]

mod laws;
mod machine;
mod step;

pub use laws::{grown_rows, runs};
pub use machine::Machine;
pub use step::Step;
