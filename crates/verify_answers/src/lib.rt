//! The parts of a verifier's call that need no log: what it is asked, what a certificate is, and
//! what is told of it.
//!
//! `read_words` reads the one formula that the words are. `judge_certificate` judges a certificate
//! on a log that was checked, line by line, to the end of the input (`judged`): accepted, or
//! refused at a line, or a read failed before either. `tell_answer` writes the one line of an
//! answer, or a front of it where a write fails (`told`), and `tell_fault` the line of a fault.
//! Each says what was read or written, and a read or write fault comes only where that object's
//! count of faults rose.
//!
//! *Not said*: that memory suffices, and how long a call takes.
#![tactic(auto)]

mod answer;
mod asking;
mod certificates;
mod telling;

pub use answer::{Answer, Verified};
pub use asking::read_words;
pub use certificates::judge_certificate;
pub use telling::{tell_answer, tell_fault};
