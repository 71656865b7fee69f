//! Slices of disjunctions (Mittal and Garg).
//!
//! The joined slice of two slices stands for the smallest set that holds the cuts of both and is
//! closed under minimum and maximum (`join_slices`, clauses `stands` and `fits`); of the row of
//! each event it keeps the minimum (`rows`). In another grouping joining gives equal rows
//! (`joined_slices_group`). Nothing is said of the time or the memory that a call takes.
#![tactic(auto)]

mod join;
mod laws;

pub use join::join_slices;
pub use laws::joined_slices_group;
