//! Torn logs, as killed processes leave them: the greatest beginning of the run of which everything
//! is logged.
//!
//! `whole_beginning` gives of the items of a log those without the events that stand on what isn't
//! logged (`beginning`), and for each process how many of its events were left out. They are the
//! items of a log as far as they go (`fit`), and faults of their clocks and messages are told by
//! whoever judges them. `whole_beginning_of` does so of a log of one batch that stands whole, and
//! gives a log again: both go over parts of a log in their order (`Part`), items or events.
//!
//! Not said: how much memory there is, and how long a call takes.
#![tactic(auto)]

mod counting;
mod cutting;
mod part;
mod sends;
mod torn;

pub use part::Part;
pub use torn::{Torn, TornLog, whole_beginning, whole_beginning_of};
