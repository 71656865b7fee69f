//! The forms of an input.

/// A form of input.
#[derive(Clone, Copy, Debug, PartialEq, Eq)]
pub enum Form {
    /// The text of one log.
    OneLog,
    /// The texts of several logs one behind another, each of one process.
    Merged,
    /// Records of two lines, of which the first has a vector clock.
    Clocks,
}
