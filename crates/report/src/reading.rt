//! The reading of the text of a report.

ghost use Rattle.std.specs.Prelude.{◌≡◌, [], None, Some, IfErr, IfOk, MatchResult};
ghost use Rattle.pota_base.specs.declared.fault.Refused.TheVariants.{NoMemory as OutOfMemory};
ghost use Rattle.report.specs.declared.draft.Draft.TheVariants.{Over as OverAs};
ghost use Rattle.report.specs.declared.report.Report.{Report as ReportOf};
ghost use Rattle.report.specs.Spelling.{IsWellFormed, report_text};
ghost use Rattle.report.specs.Fault.{IsFaultIn, IsTextOf, Faults};
ghost use Rattle.report.specs.Machine.{IsGood, step};
ghost use Rattle.report.specs.inside.Machine.{IsUnfinished};

use crate::draft::Draft;
use crate::report::{Report, ReportFault};
use event_log::split_line;
use pota_base::Refused;
use std::alloc::Global;

// What the next line, which has this number, makes of the draft.
fn behind(
    alloc: Global,
    draft: Draft,
    text: &[u8],
    line: u64,
) -> Result<Draft, Refused<ReportFault>>
    requires { IsGood draft }
    ensures read { IfOk result (λ next. step draft text.now ≡ Some next) }
    ensures fault { IfErr result (λ e.
        Faults e (λ f. (f.line ≡ line) × (step draft text.now ≡ None))) }
{
    match draft.step(alloc, text)? {
        Some(next) => Ok(next),
        None => Err(Refused::Fault(ReportFault { line })),
    }
}

// The report, where the draft has its last line and nothing is left.
fn ended(draft: Draft, rest: &[u8], line: u64) -> Result<Report, Refused<ReportFault>>
    ensures read { IfOk result (λ report. (draft ≡ OverAs report) × (rest.now ≡ [])) }
    ensures fault { IfErr result (λ e.
        Faults e (λ f. (f.line ≡ line) × IsUnfinished draft rest.now)) }
{
    let fault = Refused::Fault(ReportFault { line });
    if !rest.is_empty() {
        return Err(fault);
    }
    match draft {
        Draft::Over(report) => Ok(report),
        _ => Err(fault),
    }
}

fn read_lines(alloc: Global, text: &[u8]) -> Result<Report, Refused<ReportFault>>
    ensures { MatchResult result (IsTextOf text.now)
        (λ e. Faults e (λ f. IsFaultIn text.now f.line)) }
{
    // By its clause the text has a length that a word holds.
    let _len = text.len();
    let mut draft = Draft::Start;
    let mut rest = text;
    let mut line = 1u64;
    'lines: while let Some((front, after)) = split_line(rest) {
        draft = behind(alloc, draft, front, line)?;
        rest = after;
        line += 1;
    }
    ended(draft, rest, line)
}

/// The report whose text this is. `Fault` comes exactly where the text is that of no report, and
/// its line is 1 plus the number of line feeds of the text's longest prefix that is a prefix of
/// some report's text.
pub fn read_report(alloc: Global, text: &[u8]) -> Result<Report, Refused<ReportFault>>
    ensures read { IfOk result (λ r. IsWellFormed r × (text.now ≡ report_text r)) }
    // The text of a report is read as that report, unless memory runs out.
    ensures only { (r : ReportOf) → IsWellFormed r → text.now ≡ report_text r
        → MatchResult result (λ q. q ≡ r) (λ e. e ≡ OutOfMemory) }
    ensures fault { IfErr result (λ e. Faults e (λ f. IsFaultIn text.now f.line)) }
{
    read_lines(alloc, text)
}
