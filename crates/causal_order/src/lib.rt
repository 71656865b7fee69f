//! The order of a run's events by their vector clocks (Lamport; Fidge; Mattern), and consistent
//! cuts.
//!
//! The clocks of an `Order` are always those of an order (`order` of `shape`). `before` is happened
//! before, `past_into` gives the least consistent cut that has the event (`least`), `is_consistent`
//! and `can_take` are exact both ways. `extend` puts events behind those that are there (`ok`), or
//! leaves all as before (`err`).
//!
//! Not said: whether clocks are those of an order. That is a condition of `extend`.
#![tactic(auto)]

mod block;
mod order;
mod table;

pub use order::Order;
pub use table::ClockTable;
