use pota_base::List;
use rctl_grammar::{Boxed, Compare};

/// The right side of a comparison: a number, or the number of a variable of the same process.
#[derive(Clone, Copy, Debug, PartialEq, Eq)]
pub enum LocalSide {
    Number(i64),
    Variable(u32),
}

/// What is true or false of the states of one process. Variables are numbered from 0 in the order
/// of the process, watches in the order in which they were handed in.
#[derive(Debug, Drop)]
pub enum LocalExpr {
    Truth(bool),
    Compare {
        left: u32,
        compare: Compare,
        side: LocalSide,
    },
    Watch {
        watch: u32,
    },
    Not(Boxed<LocalExpr>),
    And(List<LocalExpr>),
    Or(List<LocalExpr>),
}
