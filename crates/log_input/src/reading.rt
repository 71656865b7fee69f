//! The log of an input in one of the forms.
ghost use Rattle.std.specs.Prelude.{◌≡◌, ℕ, List, [], length, IfOk, OnOk, OnErr};
ghost use Rattle.vector_clock.specs.Admitted.{IfFault};
ghost use Rattle.event_log.specs.Reader.{HasRead};
ghost use Rattle.filled_log.specs.Filling.{Keeps};
ghost use Rattle.log_rules.specs.Judgement.{waiting};
ghost use Rattle.event_log.specs.FittingItems.{FitFirst};
ghost use Rattle.event_log.specs.LogText.{log_items};
ghost use Rattle.pota_base.specs.Changes.{of_source};
ghost use Rattle.input_reading.specs.Intakes.{ReadsShort};
ghost use Rattle.log_sources.specs.Reading.{CanMerge};
ghost use Rattle.log_input.specs.declared.form.Form.TheVariants.{OneLog, Merged as MergedForm};
ghost use Rattle.log_input.specs.declared.form.Form.TheVariants.{Clocks};
ghost use Rattle.log_input.specs.Inputs.{HasStood};
ghost use Rattle.log_input.specs.inside.Judging.{IsJudged, IsMergedOf, IsTextJudged};
ghost use Rattle.log_input.specs.inside.Judging.{AreRecordsJudged, HasTaken, HasTextFault};
ghost use Rattle.log_input.specs.inside.Judging.{StandsAt, told};

use crate::faulty::shown_line;
use crate::form::Form;
use crate::judged::Judged;
use crate::places::Places;
use event_log::{Fed, Log, LogFault, Reader};
use fault_kinds::Refusal;
use filled_log::FilledLog;
use input_reading::{End, Kept, read_all};
use log_merge::{Merged, merge};
use log_sources::{Gathered, gather};
use pota_base::{Bytes, List, NoMemory, Refused, Source};
use std::alloc::Global;
use vclog_import::import;

/// What an input is once it was read.
#[derive(Debug, Drop)]
pub enum Input {
    /// Bytes of which no fault is due, which are this log, all its clocks filled in, and how a
    /// fault at a line of it is told.
    Whole(Log, Places),
    /// Bytes of which this fault is due, and what is shown of the line that it is at: its first
    /// bytes, at most `LONGEST_SHOWN_LINE`. The bytes of several logs aren't kept, so that of those
    /// it is empty.
    Faulty(Refusal, Bytes),
    /// Bytes of which no fault is due, behind which a read failed.
    Failed,
}

// A log of one batch with its clocks, or its fault told at its place.
fn fill(alloc: Global, log: Log, places: Places) -> Result<Judged, NoMemory>
    requires batch { length log.batches ≡ 1 }
    requires fit { FitFirst (log_items log) }
    ensures { IfOk result (IsJudged log places) }
{
    let mut filled = FilledLog::new(alloc);
    match filled.take_log(alloc, log) {
        Ok(()) => Ok(Judged::Whole(filled.into_log(), places)),
        Err(Refused::Fault(fault)) => Ok(Judged::Faulty(places.place(fault))),
        Err(Refused::NoMemory) => Err(NoMemory),
    }
}

// Takes the text of one log, up to its first fault.
fn take_text(
    alloc: Global,
    reader: &mut Reader,
    filled: &mut FilledLog,
    text: &[u8],
) -> Result<(), Refused<LogFault>>
    requires read { HasRead reader.old [] }
    requires none { Keeps filled.old waiting }
    ensures ok { OnOk result (HasTaken reader.new filled.new text.now) }
    ensures fault { IfFault result (HasTextFault text.now) }
{
    let Ok(fed) = reader.feed(text) else {
        return Err(Refused::NoMemory);
    };
    let Fed { items, fault } = fed;
    match filled.take_all(alloc, items) {
        Ok(()) => {}
        Err(Refused::Fault(fault)) => return Err(Refused::Fault(fault)),
        Err(Refused::NoMemory) => return Err(Refused::NoMemory),
    }
    match fault {
        Some(fault) => Err(Refused::Fault(fault)),
        None => Ok(()),
    }
}

// A text that was taken, and with which the input has ended.
fn finish(reader: &mut Reader, filled: FilledLog) -> Judged
    requires { (text : List ℕ) × HasTaken reader.old filled text }
    ensures { (text : List ℕ) → HasTaken reader.old filled text → StandsAt OneLog text result }
{
    match reader.finish() {
        Some(fault) => Judged::Faulty(Refusal::Log(fault)),
        None => Judged::Whole(filled.into_log(), Places::Lines),
    }
}

// A text that was taken, behind which no more is read for this reason.
fn judge_taken(reader: &mut Reader, filled: FilledLog, end: End) -> Judged
    requires { (text : List ℕ) × HasTaken reader.old filled text }
    ensures { (text : List ℕ) → HasTaken reader.old filled text → IsTextJudged text end result }
{
    match end {
        End::Ended => finish(reader, filled),
        End::Done => finish(reader, filled),
        End::Failed => Judged::Failed,
    }
}

// The text of one log, behind which no more is read for this reason.
fn judge(alloc: Global, text: &[u8], end: End) -> Result<Judged, NoMemory>
    ensures { IfOk result (IsTextJudged text.now end) }
{
    let mut reader = Reader::new(alloc);
    let mut filled = FilledLog::new(alloc);
    match take_text(alloc, &mut reader, &mut filled, text) {
        Ok(()) => Ok(judge_taken(&mut reader, filled, end)),
        Err(Refused::Fault(fault)) => Ok(Judged::Faulty(Refusal::Log(fault))),
        Err(Refused::NoMemory) => Err(NoMemory),
    }
}

// What was judged, told with the line of its fault, which is one of these bytes.
fn with_line(alloc: Global, judged: Judged, bytes: &[u8]) -> Result<Input, NoMemory>
    ensures { IfOk result (λ input. input ≡ told judged bytes.now) }
{
    match judged {
        Judged::Whole(log, places) => Ok(Input::Whole(log, places)),
        Judged::Faulty(refusal) => {
            let line = shown_line(alloc, refusal, bytes)?;
            Ok(Input::Faulty(refusal, line))
        }
        Judged::Failed => Ok(Input::Failed),
    }
}

// Reads the text of one log.
fn read_log<S: Source>(alloc: Global, source: &mut S) -> Result<Input, NoMemory>
    ensures reads { IfOk result (HasStood OneLog (of_source S.Source source.old source.new)) }
    ensures short { OnErr result (ReadsShort (of_source S.Source source.old source.new)) }
{
    let mut kept = Kept::new(alloc);
    let end = read_all(alloc, source, &mut kept)?;
    let text = kept.bytes.as_slice();
    let judged = judge(alloc, text, end)?;
    with_line(alloc, judged, text)
}

// The text of records of two lines as a log.
fn import_all(alloc: Global, text: &[u8]) -> Result<Judged, NoMemory>
    ensures { IfOk result (StandsAt Clocks text.now) }
{
    match import(alloc, text) {
        Ok(log) => fill(alloc, log, Places::Lines),
        Err(Refused::Fault(fault)) => Ok(Judged::Faulty(Refusal::Import(fault))),
        Err(Refused::NoMemory) => Err(NoMemory),
    }
}

// Records of two lines, behind which no more is read for this reason.
fn judge_records(alloc: Global, text: &[u8], end: End) -> Result<Judged, NoMemory>
    ensures { IfOk result (AreRecordsJudged text.now end) }
{
    match end {
        End::Ended => import_all(alloc, text),
        End::Done => import_all(alloc, text),
        End::Failed => Ok(Judged::Failed),
    }
}

// Reads records of two lines.
fn read_records<S: Source>(alloc: Global, source: &mut S) -> Result<Input, NoMemory>
    ensures reads { IfOk result (HasStood Clocks (of_source S.Source source.old source.new)) }
    ensures short { OnErr result (ReadsShort (of_source S.Source source.old source.new)) }
{
    let mut kept = Kept::new(alloc);
    let end = read_all(alloc, source, &mut kept)?;
    let text = kept.bytes.as_slice();
    let judged = judge_records(alloc, text, end)?;
    with_line(alloc, judged, text)
}

// Merges logs of one process each.
fn merge_all(alloc: Global, logs: &[Log]) -> Result<Judged, NoMemory>
    requires { CanMerge logs.now }
    ensures { IfOk result (IsMergedOf logs.now) }
{
    match merge(alloc, logs) {
        Ok(merged) => {
            let Merged { log, origins } = merged;
            fill(alloc, log, Places::Origins(origins))
        }
        Err(Refused::Fault(_)) => unreachable!(),
        Err(Refused::NoMemory) => Err(NoMemory),
    }
}

// Reads several logs one behind another.
fn read_sources<S: Source>(alloc: Global, source: &mut S) -> Result<Input, NoMemory>
    ensures reads { IfOk result (HasStood MergedForm (of_source S.Source source.old source.new)) }
    ensures short { OnErr result (ReadsShort (of_source S.Source source.old source.new)) }
{
    match gather(alloc, source)? {
        Gathered::Logs(logs) => {
            let judged = merge_all(alloc, logs.as_slice())?;
            with_line(alloc, judged, b"".as_slice())
        }
        Gathered::Fault(fault) => Ok(Input::Faulty(Refusal::Merge(fault), List::new(alloc))),
        Gathered::Failed => Ok(Input::Failed),
    }
}

/// Reads an input in this form to its end, or until its log is refused.
pub fn read_input<S: Source>(alloc: Global, form: Form, source: &mut S) -> Result<Input, NoMemory>
    ensures reads { IfOk result (HasStood form (of_source S.Source source.old source.new)) }
    ensures short { OnErr result (ReadsShort (of_source S.Source source.old source.new)) }
{
    match form {
        Form::OneLog => read_log(alloc, source),
        Form::Merged => read_sources(alloc, source),
        Form::Clocks => read_records(alloc, source),
    }
}
