//! What is asked of a run beside its formula.
//!
//! What the reports show (`Shown`) and how large the log of a bench is (`Sizes`) are read of the
//! words, and reports and summaries are made by them. The crate has no function.
#![tactic(auto)]

mod shown;
mod sizes;

pub use shown::Shown;
pub use sizes::Sizes;
