//! The witnesses of a temporal formula at the initial cut, as values. When a witness is of its
//! kind, and which one is given, is said in `run_model`; here stand the values alone.
#![tactic(auto)]

use cut_lattice::Cut;
use pota_base::{EventId, List};

/// A path from the initial cut: the events that lead to the goal, one after the other.
#[derive(Debug, Drop)]
pub struct Path {
    pub goal: Cut,
    pub steps: List<EventId>,
}

/// Why a temporal formula is true or false at the initial cut.
#[derive(Debug, Drop)]
pub enum Witness {
    /// There is nothing to show: no cut with the operand can be reached, or each cut has it.
    Nothing,
    /// A path to the least cut with the operand.
    Reach(Path),
    /// A path to a cut without the operand.
    Against(Path),
    /// A path to the final cut, with the operand at each of its cuts.
    Always(Path),
    /// The initial cut lacks the operand.
    StuckStart,
    /// The final cut lacks the operand.
    StuckFinish,
    /// Two events of which each cut with the operand has both or neither, so that no path takes
    /// one alone.
    StuckPair(EventId, EventId),
}
