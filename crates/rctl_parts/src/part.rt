use crate::expr::LocalExpr;
use pota_base::List;
use rctl_grammar::Operator;

/// A regular part of a conjunction (regular predicates: Garg and Mittal). Processes are numbered
/// from 0 in the order of the header.
#[derive(Debug, Drop)]
pub enum Part {
    /// An expression over the states of one process, `None` where it is a constant.
    Local {
        process: Option<u32>,
        expr: LocalExpr,
    },
    /// At most `k` messages are under way from the sender to the receiver.
    AtMost {
        sender: u32,
        receiver: u32,
        k: u64,
    },
    /// At least `k` messages are under way from the sender to the receiver.
    AtLeast {
        sender: u32,
        receiver: u32,
        k: u64,
    },
    /// False at every cut.
    Never,
    /// The left variable, of the left process, is at most `k` more than the right one.
    DiffAtMost {
        left_process: u32,
        left: u32,
        right_process: u32,
        right: u32,
        k: i128,
    },
    /// The left variable, of the left process, is at least `k` more than the right one.
    DiffAtLeast {
        left_process: u32,
        left: u32,
        right_process: u32,
        right: u32,
        k: i128,
    },
    /// The operator over the conjunction of the parts (Sen and Garg).
    Temporal {
        operator: Operator,
        parts: List<Part>,
    },
}

/// A formula as a disjunction of conjunctions, and the process that each watch is on: `None` for a
/// watch that the formula doesn't name.
#[derive(Debug, Drop)]
pub struct Resolved {
    pub disjuncts: List<List<Part>>,
    pub watch_process: List<Option<u32>>,
}
