//! What both views of a run say of its events, which report is shown, and which events its formula
//! is about.
//!
//! `read_last_report` gives the last report of a text that is that of one report or more (`last`),
//! and reads each such text unless memory runs out (`only`), so that no text has two last reports.
//! Its fault comes exactly where the text is none, and tells the first line at which no reports go
//! on (`fault`): an earlier report has to be well-formed as the last one has. `is_report_of` says
//! exactly whether a report has the processes and the lengths of a run, so that each event of it is
//! there.
//!
//! `event_at` gives an event, and the functions that put something give the stated text of it:
//! where it stands, its line in the log, its kind and its assignments. `names` says exactly whether
//! something stands among the tokens of a formula: a variable of a process, a channel, a watch of a
//! process, or the operator `EX`. `is_about` says exactly whether an event sets a variable that the
//! formula names, sends or receives on a channel that it names, or is of a process with a watch.
//!
//! Not said: that no other event changes what a formula without `EX` says, which is a law of
//! `kept_runs` about its names, and no law here joins these with the tokens; how much memory there
//! is; nor how long a call takes, which goes by the tokens for each assignment of an event.
#![tactic(auto)]

mod about;
mod extent;
mod fitting;
mod naming;
mod parts;
mod reading;

pub use about::{is_about, sets_some};
pub use extent::Extent;
pub use fitting::is_report_of;
pub use naming::{Sought, names};
pub use parts::{
    event_at, name_at, put_assigns, put_kind, put_line_of, put_place, variable_name, variables_at,
};
pub use reading::read_last_report;
