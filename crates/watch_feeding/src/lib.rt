//! Watches are fed the states of the processes that they are on.
//!
//! `feed_new_states` feeds each watch on a process the states that it wasn't fed yet: by `fed` each
//! of them once and in order, its answers standing behind those of its row. By `full` its row then
//! has one truth for each state, and by `grown` the old truths stand in front. Watches on no
//! process are as before (`places`). All memory is taken before the first watch is fed, so that
//! for want of it every watch is as before (`memory`), though rows may be longer then.
//!
//! It does so in two steps that may be called by themselves: `lengthen_rows` takes the memory, and
//! `feed_watches` feeds and cannot fail.
#![tactic(auto)]

mod feeding;
mod new_states;
mod rows;

pub use feeding::{feed_row, feed_states, feed_watches};
pub use new_states::feed_new_states;
pub use rows::lengthen_rows;
