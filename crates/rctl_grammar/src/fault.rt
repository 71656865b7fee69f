/// The forms that lie outside the class of formulas that are decided. `Eu` and `Au` are the untils.
#[derive(Clone, Copy, Debug, PartialEq, Eq)]
pub enum Outside {
    Af,
    Ax,
    Eu,
    Au,
}

/// What is wrong with a formula's text.
#[derive(Clone, Copy, Debug, PartialEq, Eq)]
pub enum FormulaCode {
    /// A byte that begins no token, a number with a leading zero or `-0`, a word of more than 64
    /// bytes.
    Token,
    /// The tokens before this one begin a formula, and with it they do not; or the text ends and is
    /// no formula.
    Syntax,
    /// A number outside the range of 64 bits, or a negative one compared with `intransit`.
    Number,
    /// More than 4,096 bytes.
    TooLong,
    /// The token opens level 17 or a deeper one.
    TooDeep,
    /// The token is the place of the 65th node or a later one.
    TooManyNodes,
    /// A negation of what is not regular.
    NotRegular,
    /// A disjunction inside an operand that must be regular.
    DisjunctionInside,
    /// An operator that is not decided.
    OutsideClass(Outside),
    /// The process is none of the log's.
    UnknownProcess,
    /// The variable is none of its process.
    UnknownVariable,
    /// No watch of that name was handed in.
    UnknownWatch,
    /// An earlier leaf has that watch on another process.
    WatchTwice,
}

/// What is wrong with a formula's text, and the byte at which it is, from 0.
#[derive(Clone, Copy, Debug, PartialEq, Eq)]
pub struct FormulaFault {
    pub code: FormulaCode,
    pub place: u32,
}
