//! What is asked of a formula's parts with numbers, in each form of a question.
//!
//! `ask` puts the operators of a form over the parts of each disjunct (`asked_pieces`), `ask_parts`
//! over those of one. Laws: the asked parts spell what the form asks of the formulas of the parts,
//! so that a question holds exactly where their answer says so (`asked_parts_spell_what_is_asked`);
//! and they have the counters of the given ones, and are made for the same header
//! (`asked_parts_are_made_alike`).
//!
//! Not said here: that memory suffices, nor that the asked parts are few enough; the second law has
//! how many they are.
#![tactic(auto)]

mod asking;
mod laws;

pub use asking::{ask, ask_parts};
pub use laws::{asked_parts_are_made_alike, asked_parts_spell_what_is_asked};
