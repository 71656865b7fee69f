//! Local expressions: the truth of one in each state of its process, and the pull that it asks for.
//!
//! `truth_row` gives the truths, watches by their rows. By their clauses `pulls`, `pulls_of` and
//! `constant_pulls` are stated lists of at most one pull, made by the definition of the least
//! number that passes a test; by `fit` they are pulls of the shape, and by `closed` a vector keeps
//! them exactly where its state is true. `local_parts_hold_where_they_are_true` takes that to the
//! formulas of the run, both ways, with the names of the header and the answers of the watches.
//! `made_expressions_can_be_read` says that the expressions of parts that are made for a header may
//! be handed in, and `local_pulls_grow` that no entry falls when more events come. Nothing is said
//! of want of memory but that the call answers it.
#![tactic(auto)]

mod along;
mod holding;
mod laws;
mod rows;

pub use along::{constant_pulls, pulls_of};
pub use laws::{
    local_parts_hold_where_they_are_true, local_pulls_grow, made_expressions_can_be_read,
};
pub use rows::truth_row;
