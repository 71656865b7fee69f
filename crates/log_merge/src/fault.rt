//! A fault of a source.

use fault_kinds::MergeCode;

/// A fault of a source, and its line.
#[derive(Clone, Copy, Debug, PartialEq, Eq)]
pub struct Found {
    pub code: MergeCode,
    pub line: u32,
}
