//! Tests of the lowest crates: numbers, lists and shapes, streams, inputs that are read, watches,
//! cuts, and the bytes of certificates.
//!
//! They stand apart from what they test, so that each crate is proved once.
#![tactic(auto)]

#[cfg(test)]
mod base;
#[cfg(test)]
mod certificates;
#[cfg(test)]
mod cuts;
#[cfg(test)]
mod inputs;
#[cfg(test)]
mod streams;
#[cfg(test)]
mod watches;
