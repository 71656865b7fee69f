//! All rows of a shared table settled, on any number of threads.
//!
//! `settle_all` gives the least closed vector of each row, for every number of workers and each
//! gate, and leaves the seat's floors there, so the shared words hold them too (clause `settled`).
//! The clause `takes` bounds the look-ups of one worker, and `behind` says what pays for them where
//! the table has firm rows: these are the least already, and take none. `Settled` tells which they
//! were (clause `firm`), so that callers can say which rows may be. Nothing is said of the order in
//! which workers settle, of progress, nor that two threads ran or how long they took.
#![tactic(auto)]

mod alone;
mod job;
mod laws;
mod process;
mod settled;
mod threads;
mod workers;

pub use laws::first_rows_are_final;
pub use settled::{Settled, settle_all};
