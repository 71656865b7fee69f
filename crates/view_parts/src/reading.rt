//! The reading of reports one behind the other.

ghost use Rattle.std.specs.Prelude.{◌≡◌, [], None, Some, IfErr, IfOk, MatchResult};
ghost use Rattle.pota_base.specs.declared.fault.Refused.TheVariants.{NoMemory as OutOfMemory};
ghost use Rattle.report.specs.declared.draft.Draft.TheVariants.{Over as OverAs};
ghost use Rattle.report.specs.declared.report.Report.{Report as ReportOf};
ghost use Rattle.report.specs.Fault.{Faults};
ghost use Rattle.report.specs.Machine.{IsGood, step};
ghost use Rattle.report.specs.inside.Machine.{IsUnfinished};
ghost use Rattle.view_parts.specs.Series.{IsLastOf, IsFaultInAll};
ghost use Rattle.view_parts.specs.inside.Machine.{begun_anew};

use event_log::split_line;
use pota_base::Refused;
use report::{Draft, Report, ReportFault};
use std::alloc::Global;

// What the next line goes on with: behind a whole report another one begins.
fn begun_anew(draft: Draft) -> Draft
    ensures { result ≡ begun_anew draft }
{
    match draft {
        Draft::Over(report) => {
            drop(report);
            Draft::Start
        }
        draft => draft,
    }
}

// What the next line, which has this number, makes of the draft.
fn behind(
    alloc: Global,
    draft: Draft,
    text: &[u8],
    line: u64,
) -> Result<Draft, Refused<ReportFault>>
    requires { IsGood draft }
    ensures read { IfOk result (λ next. step draft text.now ≡ Some next) }
    ensures fault { IfErr result (λ e.
        Faults e (λ f. (f.line ≡ line) × (step draft text.now ≡ None))) }
{
    match draft.step(alloc, text)? {
        Some(next) => Ok(next),
        None => Err(Refused::Fault(ReportFault { line })),
    }
}

// The last report, where the draft has its last line and nothing is left.
fn ended(draft: Draft, rest: &[u8], line: u64) -> Result<Report, Refused<ReportFault>>
    ensures read { IfOk result (λ report. (draft ≡ OverAs report) × (rest.now ≡ [])) }
    ensures fault { IfErr result (λ e.
        Faults e (λ f. (f.line ≡ line) × IsUnfinished draft rest.now)) }
{
    let fault = Refused::Fault(ReportFault { line });
    if !rest.is_empty() {
        return Err(fault);
    }
    match draft {
        Draft::Over(report) => Ok(report),
        _ => Err(fault),
    }
}

fn read_lines(alloc: Global, text: &[u8]) -> Result<Report, Refused<ReportFault>>
    ensures { MatchResult result (IsLastOf text.now)
        (λ e. Faults e (λ f. IsFaultInAll text.now f.line)) }
{
    // By its clause the text has a length that a word holds.
    let _len = text.len();
    let mut draft = Draft::Start;
    let mut rest = text;
    let mut line = 1u64;
    'lines: while let Some((front, after)) = split_line(rest) {
        draft = behind(alloc, begun_anew(draft), front, line)?;
        rest = after;
        line += 1;
    }
    ended(draft, rest, line)
}

/// The last of the reports whose texts stand here one behind the other, without anything between
/// them. `Fault` comes exactly where the text is not that of one report or more, and its line is 1
/// plus the number of line feeds of the text's longest prefix with which such a text begins.
pub fn read_last_report(alloc: Global, text: &[u8]) -> Result<Report, Refused<ReportFault>>
    ensures last { IfOk result (IsLastOf text.now) }
    // The last report of such a text is given, unless memory runs out.
    ensures only { (r : ReportOf) → IsLastOf text.now r
        → MatchResult result (λ q. q ≡ r) (λ e. e ≡ OutOfMemory) }
    ensures fault { IfErr result (λ e. Faults e (λ f. IsFaultInAll text.now f.line)) }
{
    read_lines(alloc, text)
}
