//! The text of a certificate, line by line and byte by byte, whatever its lines say of: the first
//! line, the formula's, lines each of which follows from what the lines before it left, the last of
//! them the verdict's, and `end`.
//!
//! The definitions stand in specs/; each function is a law over them, and does nothing. They say
//! which bytes are accepted and at which line others are refused, and that what is accepted is a
//! run of lines that follow one another, each spelled in its one way. What follows from what is a
//! relation that is handed in (`Said`).
#![tactic(auto)]

mod bytes;
mod runs;
mod said;

pub use bytes::{
    accepted_bytes_are_lines, bytes_have_one_answer, lines_of_nodes_are_lines,
    refused_bytes_are_lines,
};
pub use runs::accepted_lines_are_a_run;
pub use said::{Said, Stage};
