//! What the rows of a section are.

use crate::{atom_row, request_row, slice_row};
use row_text::RowKind;
use std::alloc::{AllocError, Global};

/// What the rows of a section are.
#[derive(Clone, Copy, PartialEq, Eq)]
pub enum Kind {
    /// Command lines, and logs made from numbers.
    Requests,
    /// Atoms of a run, and their pulls.
    Atoms,
    /// Slices of systems of pulls, and witnesses on them.
    Slices,
}

impl RowKind for Kind {
    fn named(word: &str) -> Option<Kind> {
        match word {
            "requests" => Some(Kind::Requests),
            "atoms" => Some(Kind::Atoms),
            "slices" => Some(Kind::Slices),
            _ => None,
        }
    }

    fn is_by_line(self) -> bool {
        false
    }

    fn judge(self, alloc: Global, row: &[String]) -> Result<Option<String>, AllocError> {
        match self {
            Kind::Requests => request_row::judge(alloc, row),
            Kind::Atoms => atom_row::judge(alloc, row),
            Kind::Slices => slice_row::judge(alloc, row),
        }
    }
}
