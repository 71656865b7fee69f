//! Tests of formulas and questions as text: the grammar, tokens, reading, printing, and reading
//! back what was printed.
//!
//! They stand apart from what they test, so that each crate is proved once.
#![tactic(auto)]

#[cfg(test)]
mod grammar;
#[cfg(test)]
mod lists;
#[cfg(test)]
mod printing;
#[cfg(test)]
mod questions;
#[cfg(test)]
mod reading;
#[cfg(test)]
mod round_trip;
#[cfg(test)]
mod tokens;
