//! Rows that are begun and raised in the one canonical way.
//!
//! As long as the present row isn't closed, the first pull that fails raises it, by what it asks
//! for at the row's number at its source (`next_raise`: `first`, `closed`). A row begins behind the
//! row of the event before it on its process, the first of a process behind the bottom's
//! (`next_row`: `after`). Both say what the step is, and leave the rows to the caller. Each such
//! step is justified (`canonical_steps_are_justified`), and leaves fewer
//! (`justified_steps_leave_fewer`).
//!
//! Which pull fails first is found by doubts: only a pull that is in doubt is looked up, and a
//! raise brings the pulls from its target into doubt and no other (`raised`, `begun`). So with P
//! pulls a row takes P look-ups, and for each raise as many as there are pulls from its target
//! (`looks`).
//!
//! Not said: how much memory there is, and how long a call takes beyond its look-ups.
#![tactic(auto)]

mod doubts;
mod laws;
mod raise;
mod row;

pub use doubts::Doubts;
pub use laws::{canonical_steps_are_justified, justified_steps_leave_fewer};
pub use raise::{Raise, next_raise};
pub use row::next_row;
