//! The report of a run, made from the answer of a formula on what was observed of the run.
//!
//! `report_on` gives the names of the processes (`names`), and what it says is so of the run: of
//! each question whose formula has, part by part, the meaning of the parts that were answered, and
//! of all watches that answer what stands in the rows of the watches (`says`). The verdict is that
//! of the formula at the initial cut; a slice stands there where one is wanted, and is that of the
//! set that is shown; witnesses stand there where they are wanted, and are the canonical ones. A
//! report after a batch, with a canonical text, is well formed, so that it has a text (`formed`).
//!
//! `witnesses_of` gives the witnesses of an answer alone, by the parts that were answered.
//!
//! Nothing is said of the time or the memory that a call takes.
#![tactic(auto)]

mod choice;
mod copies;
mod reporting;
mod shown_slice;
mod told;
mod witnesses;

pub use reporting::report_on;
pub use told::witnesses_of;
