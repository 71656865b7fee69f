//! The laws of the grammar of formulas. Each function is a law and does nothing.
//!
//! Tokens have one reading (`reading_is_one`). They have no fault exactly where they are a formula
//! of at most 16 levels and 64 nodes with its numbers in range (`within_limits_is_read`,
//! `no_fault_is_within_limits`). A first fault is one that the text has (`first_fault_stands`), and
//! none that it has comes before it (`first_fault_precedes`).
#![tactic(auto)]

mod laws;

pub use laws::{
    first_fault_precedes, first_fault_stands, no_fault_is_within_limits, reading_is_one,
    within_limits_is_read,
};
pub use rctl_lexer::lex;
