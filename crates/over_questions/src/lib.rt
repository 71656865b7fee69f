//! Questions that are asked of a log, or of processes of it, read before there is a log.
//!
//! `read_entry` reads a question of either kind (`entry`), or gives its first fault (`fault`),
//! which has a byte of the text as it was asked (`place_of`). `read_over` reads a question over
//! processes: the text without the words that name what stands for processes, where these names are
//! names of processes like others (`question`), or gives its first fault (`fault`): that of the
//! question, or else the first watch or difference of variables that it has. `barred_in` finds the
//! first of these in the disjuncts of any question (`barred_disjuncts`).
//!
//! Not said here: which processes are put in, and that memory suffices.
#![tactic(auto)]

mod barred;
mod entry;
mod reading;

pub use barred::{Barred, BarredKind, barred_in};
pub use entry::{Entry, EntryFault, read_entry};
pub use reading::{OverQuestionFault, read_over};
