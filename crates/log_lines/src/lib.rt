//! The lines of a log text: what each one says, and its one spelling.
//!
//! An event's line is read with the last clocks of the processes at hand (`Frames`), which make it
//! faster and change nothing of what is read: `read_event` says the same whatever they are.
#![tactic(auto)]

mod counts;
mod draft;
mod frames;
mod lines;
mod values;
mod words;

pub use draft::{ActionDraft, EventDraft, LineError, Setting, Settings, VarsDraft};
pub use frames::Frames;
pub use lines::{begins_vars, is_batch, is_end, read_event, read_procs, read_vars};
pub use pota_base::signed_at;
pub use pota_names::Name;
pub use values::{clock_at, names_from};
pub use words::{Named, are_distinct, name_at, place_among, place_of, spaced_name_at, text_at};
