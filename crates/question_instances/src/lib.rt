//! Questions over processes: `for p q: never p.cs = 1 & q.cs = 1` is asked of each two processes.
//!
//! `over_of` gives exactly what is stated of each text (`over_of`): the names that stand for
//! processes and where they are, nothing where the text has no `for`, or the first fault of what
//! stands behind it. `instance_of` gives the text of the question with names of processes in their
//! place, and without the `for` (`instance_text`). Worked rows are in `specs/Worked.antt`.
//!
//! Not said here: which processes are put in, nor whether what comes of it is a question.
#![tactic(auto)]

mod instance;
mod over;

pub use instance::{Naming, instance_of};
pub use over::{Over, OverCode, OverFault, over_of};
