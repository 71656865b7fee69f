//! The formula language: the reading of its texts, and their first fault. Texts are printed by
//! `print`.
//!
//! `parse` gives the one tree, places included, that the grammar gives the text (`read`), or
//! exactly its first fault (`fault`), and reads every formula within the limits unless memory runs
//! out (`complete`). `parse_long` does so for texts of up to 65,536 bytes, where `parse` refuses
//! those of more than 4,096.
#![tactic(auto)]

mod around;
mod leaf;
mod parser;
mod read;
mod role;
mod symbol;

pub use rctl_grammar::{
    Atom, Boxed, Compare, Formula, FormulaCode, FormulaFault, Operator, Outside, Place, Side, Tree,
};
pub use rctl_print::print;
pub use read::{LONGEST_FORMULA, parse, parse_long};
