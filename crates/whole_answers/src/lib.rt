//! The answers to an input whose log stands only once all bytes are there.
//!
//! `check_clocks` reads records of two lines to their end, or to the byte that is too much, imports
//! the log and checks it; `check_sources` reads several logs one behind another to their end or
//! their first fault, merges them and checks the merged log, and tells a fault of it where its
//! event comes from. Both say that the answer is the one that the reading of their form has due of
//! the bytes that were read: nothing is judged or written before the end of the input, and a read
//! fault is answered only where the bytes before it have no fault.
//!
//! *Not said here*: that memory suffices.
#![tactic(auto)]

mod checking;
mod merging;
mod places;
mod records;
mod standing;

pub use checking::{check_clocks, check_sources};
