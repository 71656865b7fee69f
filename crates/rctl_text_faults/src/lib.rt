//! The first fault of a text, as a law of texts.
//!
//! A text has a fault exactly where it is the first of those that the text has: too long before all
//! others, and of these the least place, and at one place the order of the faults
//! (`the_fault_is_the_first`). A text for which no fault is given has none
//! (`without_a_fault_there_is_none`). What `rctl_parse` says of a text's fault is said of the same
//! `fault_of_text`.
//!
//! Each function is a law and does nothing. *Not said*: what is wrong with the class of a formula,
//! or with its names; that is said of formulas that were read.
#![tactic(auto)]

mod laws;

pub use laws::{the_fault_is_the_first, without_a_fault_there_is_none};
