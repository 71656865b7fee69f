//! The lines of a report: what each one says, and its one spelling.
//!
//! Each call that reads a line gives what the definition of its kind gives, and nothing where no
//! line of the kind is spelled so (the one clause of each `read_` call). Each call that writes one
//! appends its spelling. That a line which is read is spelled so, and that what is spelled so is
//! read, is proved of the definitions for the crate above. Not said: how much memory there is, and
//! how long a call takes.
#![tactic(auto)]

mod head;
mod kinds;
mod parts;
mod slices;
mod witnesses;
mod writing;

pub use head::{is_title, read_batch, read_formula, read_lengths, read_verdict};
pub use kinds::WitnessText;
pub use slice_graph::Edge;
pub use slices::{read_edge, read_slice, read_step};
pub use witnesses::read_witness;
pub use writing::{put_edge, put_slice, put_step, put_witness};
