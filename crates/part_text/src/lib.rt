//! The text of one part of a formula, with its names: in the one spelling in which formulas are
//! printed, so that a reader finds it in the formula that was asked.
//!
//! `put_part` appends it (`part_text`). What a comparison was turned into is written as that: `<`
//! of messages as `<=` of one less, and a negated comparison as what it says.
//!
//! Not said: that memory suffices.
#![tactic(auto)]

mod atoms;
mod expr;
mod joined;
mod part;

pub use part::put_part;
