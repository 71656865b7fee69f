//! Tests of logs that are read one behind another.
//!
//! They stand apart from what they test, so that each crate is proved once.
#![tactic(auto)]

#[cfg(test)]
mod faults;
#[cfg(test)]
mod merging;
#[cfg(test)]
mod pieces;
#[cfg(test)]
mod texts;
