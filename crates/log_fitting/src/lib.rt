//! Whether what a log gave may be handed to the calls on logs, traces and sessions, for the
//! programs that run rows.
//!
//! Where a test answers true, the call's condition holds. That it answers false nowhere else is
//! not said; the rows show it.
#![tactic(auto)]

mod events;
mod header;

pub use events::{can_be_checked, events_stand};
pub use header::{are_known, has_few_variables, is_header};
