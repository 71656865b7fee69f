//! A trace that grows batch by batch: the states of its processes and the order of its events.
//!
//! `Trace::extend` takes a batch whole (`ok`), or answers exactly its first fault and is as before
//! (`fault`). After want of memory the trace is spent and answers that from then on (`memory`).
//!
//! At each moment its data are a run, whose receipts have their sends, whatever the watches are
//! (`trace` of `states` and of `order`). A batch changes no clock and no state that is there, and
//! what it leaves is a run again (`a_batch_only_adds`).
#![tactic(auto)]

mod laws;
mod trace;

pub use laws::a_batch_only_adds;
pub use trace::Trace;
pub use vector_clock::Order;
