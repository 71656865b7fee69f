//! The texts of logs of killed processes, mended.
//!
//! A process that is killed leaves a torn log: without its `end` line, and maybe with half a line.
//! `mended` gives of one such text, or of several one behind another, the whole lines alone, and
//! closes each log behind its last one. A torn line stands behind the last line feed, or in front
//! of the next log's first line.
//!
//! Not said: which events of a torn log have a past that is logged, how much memory there is, and
//! how long a call takes.
#![tactic(auto)]

mod mending;

pub use mending::mended;
