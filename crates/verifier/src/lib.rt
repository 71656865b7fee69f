//! The verifier of a certificate's text, line by line, over anything that takes lines of nodes.
//!
//! `Verifier::line` takes one line, and tells whether more is due, the text is accepted, or which
//! line is refused (`checked`): a line is refused exactly where nothing justifies it. Behind a
//! refused line each answer is the same, and behind want of memory there is none (`memory`,
//! `spent`). A line takes the look-ups of what it says of the nodes, and one that says nothing of
//! them takes none (`looks`, `none`). Not said: how much memory there is, and how long a call takes
//! beyond its look-ups.
#![tactic(auto)]

mod takes;
mod verifier;

pub use takes::Takes;
pub use verifier::{Checked, Verifier};
