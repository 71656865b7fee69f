//! The nodes of a certificate: the operands of a formula's operators, each with the rows of its own
//! system, begun and raised one step at a time.
//!
//! A formula is a flat plan: an operand's parts ask by pulls of their own or by the slice that an
//! earlier node gave. A node is begun once the one before has ended (`begin_node`), its rows are
//! begun and raised (`begin_row`, `raise`), and once all have ended the truth is that some
//! disjunct's system is closed at the initial cut (`conclude`: `truth`). Each call answers true
//! exactly where its step is justified (`allowed`), and else leaves all as it was (`same`).
//!
//! A node that has ended gives the slice of its closed cuts under its operator, whatever steps it
//! was raised by (`BeginsNode`, `Concludes`); EX asks by the slice of its operand. What stands at
//! each moment is `AreNodes`, which each justified step keeps (`justified_steps_keep_nodes`).
//!
//! The nodes own the trace of their run, and what they see of it is the order of its events. Lines
//! can be made from what stands: the rows of the present node (`present`), and how many nodes were
//! begun (`begun`).
//!
//! Look-ups are counted (`looks`); making a system or a slice takes none. Nothing is said of what
//! stands after want of memory but `AreNodes`, nor of the time or the memory that a call takes.
#![tactic(auto)]

mod conclusion;
mod giving;
mod laws;
mod nodes;
mod ordered;
mod plan;
mod present;
mod systems;

pub use laws::justified_steps_keep_nodes;
pub use nodes::Nodes;
pub use plan::{Asked, Node, Plan};
