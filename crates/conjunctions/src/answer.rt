use pota_base::List;
use rctl_grammar::Operator;
use slice_graph::Slice;

/// The truth of one part at the initial cut.
#[derive(Debug, Drop)]
pub struct PartAnswer {
    /// The number of its disjunct, from 1.
    pub disjunct: u32,
    /// Its number in the disjunct, from 1.
    pub part: u32,
    /// The operator of a temporal part.
    pub operator: Option<Operator>,
    pub truth: bool,
    /// The slice of the operand of a temporal part: of the cuts at which the operand is true.
    pub operand: Option<Slice>,
}

/// What is said of a formula on a trace.
#[derive(Debug, Drop)]
pub struct Answer {
    /// How many batches the trace has.
    pub batch: u32,
    /// The truth of the formula at the initial cut.
    pub truth: bool,
    /// The slice of the smallest sublattice that holds the cuts at which the formula is true.
    pub slice: Slice,
    /// Each part of each disjunct, in their order.
    pub parts: List<PartAnswer>,
}
