//! The view of an input that was read.
ghost use Rattle.std.specs.Prelude.{◌≡◌, ℕ, List as ListOf, false, IfOk, IfErr, MatchResult};
ghost use Rattle.input_reading.specs.declared.reading.End.TheVariants.{Done, Ended};
ghost use Rattle.report.specs.Spelling.{IsWellFormed};
ghost use Rattle.view_parts.specs.Parts.{IsReportOf};
ghost use Rattle.view_top.specs.Viewing.{IsViewOf, IsViewIn};
ghost use Rattle.view_top.specs.inside.Inputs.{HasCome, IsDone, IsReportIn, IsViewBehind};
ghost use Rattle.view_top.specs.inside.Inputs.{NoReportIn, NoViewIn};

use crate::asking::View;
use crate::fault::Fault;
use crate::input::Input;
use input_reading::End;
use pota_base::{Bytes, NoMemory, Refused};
use report::Report;
use std::alloc::Global;
use trace_growth::Trace;
use view_parts::{is_report_of, read_last_report};
use view_picture::view_picture;
use view_text::view_text;

// The view of a run by a report of it.
fn view_of(alloc: Global, asked: View, trace: &Trace, report: &Report) -> Result<Bytes, NoMemory>
    requires here { trace.now.spent ≡ false }
    requires formed { IsWellFormed report.now }
    requires fits { IsReportOf trace.now.states report.now }
    ensures { IfOk result (IsViewOf asked trace.now.states report.now) }
{
    match asked {
        View::Text(extent) => view_text(alloc, trace.states(), extent, report),
        View::Svg(extent) => view_picture(alloc, trace, extent, report),
    }
}

// The report of the run that is the last one of this text.
fn report_of(alloc: Global, trace: &Trace, text: &[u8]) -> Result<Report, Fault>
    requires { trace.now.spent ≡ false }
    ensures { MatchResult result (IsReportIn trace.now.states text.now)
        (NoReportIn trace.now.states text.now) }
{
    if text.is_empty() {
        return Err(Fault::NoReport);
    }
    let report = match read_last_report(alloc, text) {
        Ok(report) => report,
        Err(Refused::Fault(fault)) => return Err(Fault::Report(fault)),
        Err(Refused::NoMemory) => return Err(Fault::Memory),
    };
    if !is_report_of(trace.states(), &report) {
        drop(report);
        return Err(Fault::OtherLog);
    }
    Ok(report)
}

// The view of a run by the report whose text this is.
fn view_behind(alloc: Global, asked: View, trace: &Trace, text: &[u8]) -> Result<Bytes, Fault>
    requires { trace.now.spent ≡ false }
    ensures { MatchResult result (IsViewBehind asked trace.now.states text.now)
        (NoReportIn trace.now.states text.now) }
{
    let report = match report_of(alloc, trace, text) {
        Ok(report) => report,
        Err(fault) => return Err(fault),
    };
    match view_of(alloc, asked, trace, &report) {
        Ok(shown) => Ok(shown),
        Err(NoMemory) => Err(Fault::Memory),
    }
}

// Why nothing is read behind the bytes that came.
fn stopped_by(input: &Input) -> Fault
    ensures { (bytes : ListOf ℕ) → IsDone input.now bytes → NoViewIn Done bytes result }
{
    match input.fault {
        Some(fault) => Fault::Log(fault),
        None => Fault::TooLong,
    }
}

/// The view that is asked for of an input that is read no further for this reason.
pub fn view_in(alloc: Global, asked: View, input: &mut Input, end: End) -> Result<Bytes, Fault>
    requires { (bytes : ListOf ℕ) × HasCome end input.old bytes }
    ensures view { IfOk result (λ shown. (bytes : ListOf ℕ) → HasCome end input.old bytes
        → (end ≡ Ended) × IsViewIn asked bytes shown) }
    ensures fault { IfErr result (λ fault. (bytes : ListOf ℕ) → HasCome end input.old bytes
        → NoViewIn end bytes fault) }
{
    match end {
        End::Failed => return Err(Fault::Read),
        End::Done => return Err(stopped_by(input)),
        End::Ended => {}
    }
    if let Some(fault) = input.reader.finish() {
        return Err(Fault::Log(fault));
    }
    let Some(trace) = &input.log.trace else {
        unreachable!()
    };
    view_behind(alloc, asked, trace, input.behind.as_slice())
}
