//! What the texts of a section are.

use crate::{class_row, formula_row, import_row, report_row};
use row_text::RowKind;
use std::alloc::{AllocError, Global};

/// What the texts of a section are.
#[derive(Clone, Copy, PartialEq, Eq)]
pub enum Kind {
    /// Formulas, read and printed.
    Formulas,
    /// Formulas, with the first fault of their class or their disjuncts.
    Classes,
    /// Reports, read and written.
    Reports,
    /// Texts that are imported as logs.
    Imports,
}

impl RowKind for Kind {
    fn named(word: &str) -> Option<Kind> {
        match word {
            "formulas" => Some(Kind::Formulas),
            "classes" => Some(Kind::Classes),
            "reports" => Some(Kind::Reports),
            "imports" => Some(Kind::Imports),
            _ => None,
        }
    }

    fn is_by_line(self) -> bool {
        matches!(self, Kind::Classes | Kind::Imports)
    }

    fn judge(self, alloc: Global, row: &[String]) -> Result<Option<String>, AllocError> {
        match self {
            Kind::Formulas => formula_row::judge(alloc, row),
            Kind::Classes => class_row::judge(alloc, row),
            Kind::Reports => report_row::judge(alloc, row),
            Kind::Imports => import_row::judge(alloc, row),
        }
    }
}
