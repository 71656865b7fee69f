//! A view of a run as text for a terminal: what a report says of the run, with the lines of its
//! log, and the values at the goals of its witnesses.
//!
//! `view_text` gives the one text that a run and a report of it have (`view`). Each step has the
//! line of its event; those are shown that the formula is about, or all of them, as `Extent` says
//! (`the_last_kept_are_shown`). The values at a goal are those after the cut's counts, with the
//! event that last set each, the one that sets it next, and an event at the goal that doesn't wait
//! for that one (`untied_events_are_told`); beside them stand the messages in transit on each
//! channel that the formula names (`messages_in_transit_are_those_of_the_run`). A witness has the
//! text of its alternative, where the formula has several and each begins with an operator, and
//! what several alternatives say is said once. No line has more than 100 columns (`short`).
//!
//! For other texts `put_step_rows` puts the rows of a path's steps, `put_value_rows` those of the
//! values at its goal, and `folded` breaks long lines.
//!
//! Not said: that an alternative which begins with an operator is one disjunct as `rctl_class` has
//! them; how much memory there is, and how long a call takes.
#![tactic(auto)]

mod alternatives;
mod claims;
mod columns;
mod events;
mod folding;
mod latest;
mod laws;
mod shown;
mod slices;
mod ties;
mod transit;
mod values;
mod view;
mod witnesses;

pub use folding::folded;
pub use laws::{
    messages_in_transit_are_those_of_the_run, the_last_kept_are_shown, untied_events_are_told,
};
pub use values::put_value_rows;
pub use view::view_text;
pub use witnesses::{Told, put_step_rows};
