//! What a run of the analyser promises: `Ran` of `specs/Run.antt` says what was read and written,
//! that no count of faults fell, and what the status says of them. `specs/Asking.antt` says how an
//! input of each form is read, what is written of it for each product, and what is due of its
//! bytes. The laws derive what a run answers where nothing failed, and say that an input of each
//! form is read so that a fault stays.
#![tactic(auto)]

pub mod laws;
mod outcome;

pub use outcome::Outcome;
