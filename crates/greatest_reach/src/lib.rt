//! The greatest number that reaches each node of a graph.
//!
//! Numbers start at nodes and flow along the edges. A node has the greatest number that reaches it
//! (`IsGreatest`), or 0. A cycle is no exception: all its nodes have the same number.
#![tactic(auto)]

mod reach;

pub use reach::{Start, greatest};
