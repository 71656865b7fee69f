//! Tests of logs and runs: the text of a log, the order of events, their clocks, runs that grow by
//! batches, the slices of a run, and counters along it.
//!
//! They stand apart from what they test, so that each crate is proved once.
#![tactic(auto)]

#[cfg(test)]
mod clocks;
#[cfg(test)]
mod counters;
#[cfg(test)]
mod events;
#[cfg(test)]
mod growth;
#[cfg(test)]
mod logs;
#[cfg(test)]
mod orders;
#[cfg(test)]
mod slices;
