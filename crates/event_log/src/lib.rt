//! The text of a log: what its lines say, and the first fault of any text.
//!
//! `Reader::feed` gives the items and the first fault of the bytes so far, however they are cut
//! into pieces (`read`); after want of memory it answers that from then on (`spent`, `err`).
//! `Reader::feed_log` does the same up to the end of one log, and hands back the bytes behind it.
//! `Reader::finish` gives the first fault of the whole text (`fault`). Laws: the text of a log has
//! no fault and gives the log's items (`a_log_reads_back`); a text without a fault is that of a log
//! that can be written (`no_fault_is_a_log`); the items of any bytes are those of a log, as far as
//! they go (`items_fit`); a header's lines are those of its variables (`lines_are_noted`).
//!
//! `States` keeps the state of each process after each of its events (`state`, `value`) and takes a
//! batch whole or not at all (`extend`).
//!
//! Not said: how much memory there is, and how long a call takes.
#![tactic(auto)]

mod all_histories;
mod copies;
mod counting;
mod feeder;
mod history;
mod item;
mod laws;
mod line_reader;
mod log;
mod numbers;
mod reader;
mod refusals;
mod split;
mod states;
mod writing;

pub use copies::{Copies, copy_of, names_of, var_lines_of};
pub use counting::{MANY_EVENTS, count_events};
pub use item::{Fed, Item, LogCode, LogFault};
pub use laws::{a_log_reads_back, items_fit, lines_are_noted, no_fault_is_a_log};
pub use log::{Assign, Binding, Event, Header, Kind, Log};
pub use log_lines::Name;
pub use reader::Reader;
pub use split::split_line;
pub use states::States;
pub use writing::{put_clock, put_names, put_spaced};
