//! The logs that the processes of one run wrote, each for itself, read one behind another.
//!
//! `SourceReader::feed` gives the first fault of the bytes so far, however they are cut into pieces
//! (`fault`), and `SourceReader::finish` that of the whole input. Where there is none,
//! `SourceReader::into_logs` gives the logs, which can be merged (`logs`, `can_merge`). What the
//! bytes so far are, byte by byte, is said by `step` and `after` in specs/Sources. Laws: it doesn't
//! matter how the bytes are cut (`pieces_do_not_matter`); a fault stays (`a_fault_stays`); bytes
//! without a fault are few (`faultless_are_few`), and an input without a fault is the texts of logs
//! that can be merged (`faultless_are_texts`).
//!
//! `gather` reads the sources of an input: it gives their logs where the input ended without a
//! fault, else the first fault of its bytes, and a failed read only where the bytes before it have
//! none.
//!
//! Not said: how much memory there is, and how long a call takes.
#![tactic(auto)]

mod draft;
mod gathering;
mod laws;
mod reader;

pub use gathering::{Gathered, gather};
pub use laws::{a_fault_stays, faultless_are_few, faultless_are_texts, pieces_do_not_matter};
pub use reader::SourceReader;
