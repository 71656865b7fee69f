//! Counters: variables that never fall along their process, and bounds on the difference of two of
//! them as pulls.
//!
//! By their clauses `pulls`, `diff_at_most` and `diff_at_least` are one stated table each, made by
//! the definition of the least number that passes a test; by `fit` it is a pull of the run's shape,
//! and by `closed` a vector keeps it exactly where the values say so.
//! `differences_hold_where_they_are_true` takes that to the formulas of the run, both ways.
//! `difference_pulls_grow` says that no entry falls when more events come, and
//! `counters_never_fall` that a formula's differences are regular in the run. Nothing is said of
//! want of memory but that the call answers it.
//!
//! `first_fall` is exactly the fault of the first event of a batch that leaves a counter lower than
//! it was, and takes no memory. Where there is none, the counters stay counters behind the batch
//! (`counters_stay`), from the header on (`a_header_has_counters`). Clocks make no difference
//! (`clocks_make_no_fall`).
#![tactic(auto)]

mod bounds;
mod falls;
mod laws;
mod positions;
mod values;

pub use bounds::{diff_at_least, diff_at_most};
pub use falls::first_fall;
pub use laws::{
    a_header_has_counters, batches_without_a_fall_may_be_joined, clocks_make_no_fall,
    counters_never_fall, counters_stay, difference_pulls_grow,
    differences_hold_where_they_are_true, without_counters_nothing_falls,
};
pub use values::Variable;
