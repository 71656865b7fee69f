//! Claims on processes: one word per process, which exactly one caller takes.
//!
//! `Claims::claim` swaps 1 into the word of a process. It is true where it found 0: the caller then
//! claims the process. Between any two steps of any callers each word is 0 or 1, it is 1 exactly
//! where a caller claims the process, and then exactly one does (`specs/Claims.antt`). Nothing is
//! said of the order in which callers claim, nor that a caller ever gets a claim.
#![tactic(auto)]

mod claimer;
mod claims;

pub use claimer::Claimer;
pub use claims::Claims;
