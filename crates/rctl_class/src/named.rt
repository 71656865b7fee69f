use pota_base::List;
use rctl_grammar::{Boxed, Compare, Operator, Place};

/// The right side of a comparison: a number, or a variable of the same process.
#[derive(Debug, Drop)]
pub enum NamedSide {
    Number(i64),
    Variable(Place),
}

/// What is true or false of the states of one process, by the names of its variables and of
/// watches.
#[derive(Debug, Drop)]
pub enum NamedExpr {
    Truth(bool),
    Compare {
        left: Place,
        compare: Compare,
        side: NamedSide,
    },
    Watch {
        watch: Place,
    },
    Not(Boxed<NamedExpr>),
    And(List<NamedExpr>),
    Or(List<NamedExpr>),
}

/// A regular part of a conjunction (regular predicates: Garg and Mittal).
#[derive(Debug, Drop)]
pub enum NamedPart {
    /// An expression over the states of one process, whose place is the first one that names it;
    /// `None` where the expression names no process.
    Local {
        process: Option<Place>,
        expr: NamedExpr,
    },
    /// At most `k` messages are under way from the sender to the receiver.
    AtMost {
        sender: Place,
        receiver: Place,
        k: u64,
    },
    /// At least `k` messages are under way from the sender to the receiver.
    AtLeast {
        sender: Place,
        receiver: Place,
        k: u64,
    },
    /// False at every cut: fewer than 0 messages are under way. The names may be unknown all the
    /// same.
    Never {
        sender: Place,
        receiver: Place,
    },
    /// The left variable is at most `k` more than the right one.
    DiffAtMost {
        left_process: Place,
        left: Place,
        right_process: Place,
        right: Place,
        k: i128,
    },
    /// The left variable is at least `k` more than the right one.
    DiffAtLeast {
        left_process: Place,
        left: Place,
        right_process: Place,
        right: Place,
        k: i128,
    },
    /// The operator over the conjunction of the parts (Sen and Garg).
    Temporal {
        operator: Operator,
        parts: List<NamedPart>,
    },
    /// The conjunction of the parts behind the next event of the process.
    Next {
        process: Place,
        parts: List<NamedPart>,
    },
}

/// A formula of the class as a disjunction of conjunctions of parts.
#[derive(Debug, Drop)]
pub struct Classed {
    pub disjuncts: List<List<NamedPart>>,
}
