//! The least consistent cut at which a conjunction of atoms is true.
//!
//! `least_holding` gives that cut, or none where no consistent cut satisfies the conjunction
//! (clause `least`); it is the bottom of the conjunction's slice (`bottom`). It needs no row: only
//! the least closed vector of the order's pulls and those of the atoms. The system of the order's
//! pulls is made once, by `order_system`, and is handed from one conjunction to the next
//! (`system`).
//!
//! Not said here: that memory suffices, nor how long a call takes.
#![tactic(auto)]

mod asking;
mod finding;
mod holding;
mod kinds;

pub use holding::{Found, least_holding, order_system};
pub use kinds::are_atoms;
