//! The canonical certificate of a formula on what was observed, written as it is made.
//!
//! `certify` writes the text and tells its verdict; where a write fails or memory ends, what was
//! written is a front of it (`certified`, `memory`). The text is `IsCertificateOf` in specs/: the
//! first line, the formula's, the canonical lines of the formula's nodes with the verdict's, and
//! `end`.
//!
//! There is one such text at most (`certificates_are_one`), a verifier accepts it byte for byte
//! (`certificates_are_accepted`), and its verdict is the truth of the formula at the initial cut
//! (`certificates_tell_the_truth`). Nothing is said of the time or the memory that a call takes.
#![tactic(auto)]

mod laws;
mod writing;

pub use laws::{
    certificates_are_accepted, certificates_are_one, certificates_tell_the_truth,
    formula_lines_are_lines,
};
pub use writing::certify;
