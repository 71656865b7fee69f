//! The lines of the canonical certificate, one after the other, as the nodes make and take them.
//!
//! `CanonicalNodes::next_line` gives the next canonical line of the nodes and takes it (`next`): a
//! raise while a pull fails at the present row, then the next row, then the next node, and at last
//! the verdict. Behind each line of a node fewer lines are left (`less`), so the verdict comes.
//!
//! Which pull fails first is found by doubts (`certificate_raises`), so that a raise doesn't look
//! at all pulls again. Nothing is said of what stands after want of memory, nor of the time or the
//! memory that a call takes.
#![tactic(auto)]

mod nodes;
mod rows;

pub use certificate_canonical::{an_accepted_certificate_tells_the_truth, nodes_for};
pub use nodes::CanonicalNodes;
