use crate::boxed::Boxed;
use pota_names::{List, Name};

/// How two values are compared.
#[derive(Clone, Copy, Debug, PartialEq, Eq)]
pub enum Compare {
    Eq,
    Ne,
    Lt,
    Le,
    Gt,
    Ge,
}

/// A name, and the byte of the text at which it begins, from 0.
#[derive(Debug, Drop)]
pub struct Place {
    pub name: Name,
    pub at: u32,
}

/// The right side of a comparison.
#[derive(Debug, Drop)]
pub enum Side {
    Number(i64),
    Variable { process: Place, variable: Place },
}

/// What is true or false of a state without looking further.
#[derive(Debug, Drop)]
pub enum Atom {
    Truth(bool),
    /// A variable of a process against a number or a variable.
    Local {
        process: Place,
        variable: Place,
        compare: Compare,
        side: Side,
    },
    /// The watch of this name, on the process.
    Watch {
        process: Place,
        watch: Place,
    },
    /// The number of messages under way from the sender to the receiver, against `k`, which is at
    /// most 2^63 - 1.
    InTransit {
        sender: Place,
        receiver: Place,
        compare: Compare,
        k: u64,
    },
    /// No message is under way from the sender to the receiver.
    Empty {
        sender: Place,
        receiver: Place,
    },
    /// The difference of two counters, each of its process, against `k`.
    Difference {
        left_process: Place,
        left: Place,
        right_process: Place,
        right: Place,
        compare: Compare,
        k: i64,
    },
}

/// The operators of one operand: possibly or always, on some path or on all, and behind the next
/// event of the process of that number. A tree names that process, in its `Next`, and never has
/// `Ex`.
#[derive(Clone, Copy, Debug, PartialEq, Eq)]
pub enum Operator {
    Ef,
    Ag,
    Eg,
    Ex(u32),
    Af,
    Ax,
}

/// A formula's nodes. The place `at` of a node is a byte of the text, from 0: of a leaf's first
/// token, of `!`, of the first `&` of an And, of the first `|` of an Or, of the operator's word, of
/// the `E` or `A` of an until.
#[derive(Debug, Drop)]
pub enum Tree {
    Leaf {
        atom: Atom,
        at: u32,
    },
    Not {
        inner: Boxed<Tree>,
        at: u32,
    },
    /// Two or more members.
    And {
        members: List<Tree>,
        at: u32,
    },
    /// Two or more members.
    Or {
        members: List<Tree>,
        at: u32,
    },
    Temporal {
        operator: Operator,
        inner: Boxed<Tree>,
        at: u32,
    },
    /// Behind the next event of the process.
    Next {
        process: Place,
        inner: Boxed<Tree>,
        at: u32,
    },
    /// `left` until `right`, on all paths or on some path.
    Until {
        all: bool,
        left: Boxed<Tree>,
        right: Boxed<Tree>,
        at: u32,
    },
}

/// A formula that was read.
#[derive(Debug, Drop)]
pub struct Formula {
    pub tree: Tree,
}
