//! The logs that the processes of one run wrote, each for itself, merged into one.
//!
//! `merge` gives exactly the merged log and where each of its events comes from (`ok`), where the
//! sources have no fault (`faultless`), or exactly the first fault by source (`fault`). Laws: which
//! sources have no fault (`no_fault_is_apart`); that their order doesn't matter
//! (`any_order_will_do`); that the merged log may be handed on (`merged_logs_fit`); that the
//! batches of the sources don't matter (`batches_do_not_matter`), so that each log that reading
//! gives is a source, in one batch too (`logs_are_sources`). `Joined::join` judges one source
//! behind those before it.
//!
//! Not said: that the merged log's clocks have no fault, how much memory there is, and how long a
//! call takes.
#![tactic(auto)]

mod fault;
mod gathering;
mod judging;
mod laws;
mod merged;
mod seen;

pub use fault::Found;
pub use fault_kinds::{MergeCode, MergeFault};
pub use judging::Joined;
pub use laws::{
    any_order_will_do, batches_do_not_matter, logs_are_sources, merged_logs_fit, no_fault_is_apart,
};
pub use merged::{Merged, Origin, merge};
