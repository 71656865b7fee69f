//! The canonical certificate, a line at a time: which line is the next one of the nodes as they
//! stand. The definitions stand in specs/; each function is a law over them, and does nothing.
//!
//! Each canonical line follows (`canonical_lines_follow`), so that the canonical certificate is
//! accepted (`canonical_certificates_are_accepted`). There is one next line at most, so that
//! canonical lines are the front of the one whole text (`canonical_text_is_one`).
#![tactic(auto)]

mod laws;

pub use certificate::{an_accepted_certificate_tells_the_truth, nodes_for};
pub use laws::{
    canonical_certificates_are_accepted, canonical_lines_follow, canonical_text_is_one,
};
