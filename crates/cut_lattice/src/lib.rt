//! Cuts: one count per process, under componentwise minimum and maximum.
//!
//! A `Cut` is its list of counts; `meet_into` and `join_into` are the minimum and the maximum,
//! `within` and `is_final` are exact both ways. They take no memory. Whether a cut lies within a
//! run, or is consistent, is not said here.
#![tactic(auto)]

mod cut;

pub use cut::Cut;
