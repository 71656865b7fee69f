//! A certificate of a formula's truth at the initial cut, a line at a time: the plan of the
//! formula, and what a line may say.
//!
//! `plan_of` numbers the operands of a formula's operators as nodes and gives for each part what it
//! asks (clause `plan`); `nodes_for` makes the nodes of that plan, none of them begun (`fresh`).
//! `take_line` takes a line exactly where it is justified, and it is then what the line says of the
//! nodes (clause `follows`); a line that it refuses is justified for no nodes behind it (clause
//! `refused`). It looks up no more than `specs/Following.antt` counts for the line (clause
//! `looks`). A verifier of a certificate's text is handed the nodes as `CertificateNodes`.
//!
//! Whoever made the certificate, the truth that is concluded from the slices of all nodes is that
//! of the formula at the initial cut (`a_conclusion_is_the_truth`), and so the verdict of a text
//! that is accepted is the formula's truth (`an_accepted_certificate_tells_the_truth`).
//!
//! A difference of counters is an atom. Its pulls say what it means where neither counter ever
//! falls, which the caller has to show. Nothing is said of the text of a line, nor of the time or
//! the memory that a call takes.
#![tactic(auto)]

mod laws;
mod plan;
mod starting;
mod taking;
mod verified_nodes;

pub use laws::{a_conclusion_is_the_truth, an_accepted_certificate_tells_the_truth};
pub use plan::plan_of;
pub use starting::nodes_for;
pub use taking::take_line;
pub use verified_nodes::CertificateNodes;
