//! Witnesses of temporal formulas: why one is true or false at the initial cut.
//!
//! `explain` gives the canonical witness by the slice of the operand (`canonical`), and where that
//! slice stands for the family of a formula, a witness of its kind (`kind`). `reach_to` gives that
//! of EF by the least cut of the operand alone. A step of either path costs at most one look-up of
//! a clock or a row for each process, and nothing is kept but the steps; that is how it is written,
//! and no clause says it. Not said: how much memory there is, and how long a call takes.
#![tactic(auto)]

mod cases;
mod search;
mod twins;
mod walk;
mod ways;

pub use cases::{Explained, explain, reach_to};
pub use witness_kinds::{Path, Witness};
