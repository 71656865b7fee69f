//! One table of bounds that callers on any number of threads raise without a lock.
//!
//! Between any two steps each word lies between its row's start and the row's least closed vector,
//! and has reached each seat's floor for it; a process that a seat claims is claimed by no other
//! (`specs/inside/Rule.antt`). `settle` gives the least closed vector of a row (clause `least`)
//! with at most `P * (1 + rise)` look-ups (`looks`), and `settle_after` gives it from a closed row
//! that the caller holds, each look-up paid for by a rise above that row (`pays`). No call lowers a
//! floor. Nothing is said of an order between callers, of progress, nor of time.
#![tactic(auto)]

mod firm;
mod narrow;
mod seat;
mod settle;
mod table;

pub use firm::Firm;
pub use narrow::widened;
pub use seat::Seat;
pub use table::BoundTable;
