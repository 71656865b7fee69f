//! Systems of pulls held as fans, with the rows of what they ask.
//!
//! A `Fan` holds the pulls from one process side by side, and a `System` is made from fans. More
//! fans may be put behind its own (`System::with_fans`), the last pulls taken off again
//! (`System::with_first_pulls`), and all pulls grown with the shape (`System::grown`).
//! `System::pull` gives one entry of a pull's table, and `System::asks` what all pulls from a
//! process ask at one value; both count look-ups (clauses `step` and `steps`). What a system of
//! pulls is, and its laws, stand in `pull_system`. Nothing is said of time.
#![tactic(auto)]

mod asks;
mod fan;
mod first;
mod growing;
mod layout;
mod lone;
mod narrow;
mod places;
mod system;

pub use fan::{Fan, pulls_of};
pub use system::System;
