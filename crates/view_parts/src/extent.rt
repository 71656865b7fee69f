//! How much of a run is shown.

/// How much of a run is shown.
#[derive(Clone, Copy, Debug, PartialEq, Eq)]
pub enum Extent {
    /// What the formula is about, and of much the last of each process.
    Folded,
    /// Of what the formula is about the last so many of each process.
    Last(u32),
    /// All of it.
    Whole,
}
