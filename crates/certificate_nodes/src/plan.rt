//! A formula as a flat plan.
use pota_base::List;
use pull_system::Pull;
use rctl_grammar::Operator;

/// What a part of a conjunction asks of cuts.
#[derive(Debug, Drop)]
pub enum Asked {
    /// Pulls of its own.
    Own(List<Pull>),
    /// What the slice of the node of this number gives, from 0.
    Inner(u32),
}

/// The operand of an operator: the parts of its conjunction, in their order.
#[derive(Debug, Drop)]
pub struct Node {
    pub operator: Operator,
    pub parts: List<Asked>,
}

/// The operands of all operators of a formula, an inner one before the outer one and else in the
/// order of the text, and what the parts of each disjunct ask.
#[derive(Debug, Drop)]
pub struct Plan {
    pub nodes: List<Node>,
    pub disjuncts: List<List<Asked>>,
}
