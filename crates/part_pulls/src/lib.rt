//! What a part of a formula by numbers asks of the cuts of what was observed.
//!
//! `pulls_of_atom` gives the pulls of a part that isn't temporal: a consistent cut is closed under
//! them exactly where the part is true (field `meaning` of `IsAtomOf`), and they are those of
//! `specs/Systems.antt` (field `own`). `operate` gives of the slice of an operand the slice of the
//! consistent cuts at which EF, AG or EG over it is true (clause `cuts`); EX has no slice of its
//! own. `has_initial` and `has_first` tell whether a slice has the initial cut, and whether it has
//! the cut with the first event of one process alone.
//!
//! A difference of counters is an atom. Its pulls say what it means where neither counter ever
//! falls, which the caller has to show (clause `counters`).
//!
//! Nothing is said of the pulls of EX, which `temporal_slice` makes, nor of the time or the memory
//! that a call takes.
#![tactic(auto)]

mod atom;
mod atom_pulls;
mod observed;
mod operator;

pub use atom::pulls_of_atom;
pub use atom_pulls::AtomPulls;
pub use observed::Observed;
pub use operator::{has_first, has_initial, operate};
pub use trace_growth::Trace;
