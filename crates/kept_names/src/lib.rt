//! What a log is folded to, as the words of a command line name it.
//!
//! `names_kept` gives what the words behind each `--keep` name: a variable by `NAME.VARIABLE`, a
//! channel by `NAME>NAME`, a process as a whole by `NAME`. It gives nothing exactly where `--keep`
//! is the last word or the word behind one is none of these. Other words it passes over.
//!
//! Not said: whether a log has these names, and that memory suffices.
#![tactic(auto)]

mod names;
mod words;

pub use names::{Named, Names, Pair};
pub use words::{is_keep, named, names_kept, waits_behind};
