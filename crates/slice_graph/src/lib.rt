//! Slices of a run (Mittal and Garg): a set of consistent cuts that is closed under minimum and
//! maximum, by its least cut and, for each event, the least cut that has the event (Birkhoff).
//!
//! `Slice::from_rows` stands for the cuts that a system of pulls is closed under (clauses `stands`,
//! `fits` and `cuts`), whichever system it is that has the order's pulls. What a slice has by
//! `has`, `has_final`, `bottom`, `top` and `least_with` are its cuts, their least, their greatest
//! and the least with an event (clauses `cuts`, `least`, `greatest`). The pulls of an order are
//! closed exactly at its consistent cuts, and those of a slice exactly at its cuts (clauses
//! `closed`). Bottom, top and edges denote the cuts (clauses `denoted` and `printed`).
//! The rows of a slice and the clocks of an order lie within each vector that is closed under their
//! pulls, from their starts on (clauses `begins`), so that a table of a system may begin from them.
//! `systems_of_an_order`, `least_or_none` and `order_grows` are laws. Nothing is said of the time
//! or the memory that a call takes.
#![tactic(auto)]

mod cuts;
mod edges;
mod from_rows;
mod growing;
mod kept_rows;
mod laws;
mod narrow_rows;
mod order_pulls_of;
mod slice;
mod slice_pulls;
mod starting;
mod table;

pub use causal_order::Order;
pub use cuts::{is_within, join_words, set_words};
pub use edges::Edge;
pub use growing::grown_order_system;
pub use laws::{least_or_none, order_grows, rows_of_one_slice, systems_of_an_order};
pub use order_pulls_of::{order_fans, order_pulls};
pub use slice::Slice;
pub use slice_pulls::all_processes;
pub use starting::{order_rows, order_rows_above};
pub use table::CutTable;
