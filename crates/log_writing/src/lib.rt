//! The text of a log, however long it is.
//!
//! `text_of` writes the text of a log whose lines can be spelled. It asks for no lines of its
//! events, and for no length: who writes a log that was made, and not read, looks at the length of
//! the text that it is. `write_log` does the same for a log that reading gives.
//!
//! Not said: how much memory there is, and how long a call takes.
#![tactic(auto)]

mod writing;

pub use writing::{text_of, write_log};
