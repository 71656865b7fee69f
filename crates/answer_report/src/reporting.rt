//! The report of a run from the answer of a formula.
ghost use Rattle.std.specs.Prelude.{◌≡◌, ◌≤◌, List, IfOk};
ghost use Rattle.rctl_parts.specs.Pieces.{Piece};
ghost use Rattle.part_pulls.specs.Observing.{Reading, IsReady, trace_seen};
ghost use Rattle.conjunctions.specs.Answering.{IsAnswer};
ghost use Rattle.report_lines.specs.Formula.{IsCanonical};
ghost use Rattle.report.specs.Spelling.{IsWellFormed};
ghost use Rattle.run_report.specs.Reports.{Asked, IsReportOn};
ghost use Rattle.answer_report.specs.Asking.{IsAskedOf};

use crate::copies::{copy_names, copy_text, cut_of};
use crate::shown_slice::slice_told;
use crate::witnesses::witnesses_told;
use call_options::Shown;
use conjunctions::Answer;
use part_pulls::Observed;
use pota_base::{Bytes, NoMemory};
use report::Report;
use std::alloc::Global;

/// The report on what was observed, by the answer of the formula that has this text. It can be
/// written where a batch was read and the text is the canonical one.
pub fn report_on(
    alloc: Global,
    seen: &Observed,
    answer: &Answer,
    shown: Shown,
    text: &Bytes,
) -> Result<Report, NoMemory>
    requires ready { IsReady seen.now }
    requires answer { (pieces : List (List Piece)) × IsAnswer seen.now pieces answer.now }
    ensures names { IfOk result (λ report. report.procs ≡ seen.now.trace.states.header.procs) }
    ensures says { IfOk result (λ report. (reading : Reading) (q : Asked)
        → IsAskedOf seen.now answer.now shown text.now reading q
        → IsReportOn q seen.now.trace.batches (trace_seen seen.now) reading.watches report) }
    ensures formed { IfOk result (λ report. IsCanonical text.now → 1 ≤ seen.now.trace.batches
        → IsWellFormed report) }
{
    let order = seen.trace.order();
    let parts = answer.parts.as_slice();
    let slice = slice_told(alloc, order, &answer.slice, shown.slice)?;
    let witnesses = witnesses_told(alloc, order, parts, answer.truth, shown.witness)?;
    Ok(Report {
        batch: seen.trace.batches(),
        procs: copy_names(alloc, seen.trace.header().procs.as_slice())?,
        lengths: cut_of(alloc, order.shape().lens())?,
        formula: copy_text(alloc, text)?,
        verdict: answer.truth,
        slice,
        witnesses,
    })
}
