//! The parts that a formula of the class falls into, by the numbers of processes, variables and
//! watches.
//!
//! The types alone, and what contracts see of them: a local expression and a part are plain data by
//! one fold each, and spell a formula again once names stand for the numbers.
//! `parts_spell_formulas` says that the formula of disjuncts is true exactly where some disjunct
//! has all its parts true. When disjuncts are made for a header and watches is one definition,
//! which reads only how many variables each process has and which process each watch is on.
#![tactic(auto)]

mod expr;
mod laws;
mod part;

pub use expr::{LocalExpr, LocalSide};
pub use laws::parts_spell_formulas;
pub use part::{Part, Resolved};
