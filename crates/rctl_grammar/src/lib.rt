//! The grammar of the formula language: its tokens, its trees, the derivations that join them, and
//! the first fault of a text.
//!
//! All of it is definitions but one law: the tree of a derivation, without its places, is the
//! formula that the derivation spells (`trees_are_spelled`). RCTL is regular CTL: branching-time
//! logic (EF, AG, EG and the others) over regular predicates (Sen and Garg).
#![tactic(auto)]

mod boxed;
mod fault;
mod laws;
mod token;
mod tree;

pub use boxed::Boxed;
pub use fault::{FormulaCode, FormulaFault, Outside};
pub use laws::trees_are_spelled;
pub use pota_names::Name;
pub use token::{End, Kind, Token, Word};
pub use tree::{Atom, Compare, Formula, Operator, Place, Side, Tree};
