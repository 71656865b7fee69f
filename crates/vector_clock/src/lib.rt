//! The checks of a log's vector clocks and messages, batch by batch.
//!
//! A log may leave clocks out: `Clocks::fill` and `filled` give a batch with the clocks that its
//! events have by what they look back on, and `check` fills each batch before it admits it.
//!
//! `Clocks::admit` and `check` answer exactly the first fault (`fault`), each event through all
//! faults before the next, or take the batch whole (`ok`); after a refusal all is as before
//! (`same`).
//!
//! Laws: clocks without a fault are those of an order (`no_fault_is_an_order`). A log without a
//! fault is a run, of which no channel has more receipts than sends at a consistent cut
//! (`no_fault_is_a_run`), and so are events that came batch after batch without a fault
//! (`faultless_is_a_run`). Only the events that a clock newly names need be looked at
//! (`only_new_names_count`). An event whose clock is left out has one clock alone
//! (`each_has_one_clock`), and clocks that are written stay (`written_clocks_stay`).
//!
//! Not said: that messages arrive in their order, or at all; how long a call takes.
#![tactic(auto)]

mod batch_clocks;
mod beyond;
mod clocks;
mod counts;
mod joined;
mod judging;
mod laws;
mod left_out;
mod message;
mod messages;
mod nodes;
mod places;

pub use causal_order::Order;
pub use clocks::Clocks;
pub use laws::{
    each_has_one_clock, faultless_is_a_run, no_fault_is_a_run, no_fault_is_an_order,
    only_new_names_count, worked_clocks, worked_faults, written_clocks_stay,
};
pub use left_out::{check, filled};
pub use message::Message;
