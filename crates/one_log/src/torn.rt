//! The log of processes that were killed: their texts mended, up to the greatest cut that is logged
//! whole.
ghost use Rattle.std.specs.Prelude.{◌≡◌, ◌≢◌, length, None, IfOk, OnErr};
ghost use Rattle.event_log.specs.FittingItems.{FitFirst};
ghost use Rattle.event_log.specs.LogText.{log_items};
ghost use Rattle.pota_base.specs.Changes.{of_source};
ghost use Rattle.input_reading.specs.Intakes.{ReadsShort};
ghost use Rattle.log_sources.specs.Reading.{CanMerge};
ghost use Rattle.log_input.specs.declared.form.Form.TheVariants.{OneLog, Merged as MergedForm};
ghost use Rattle.log_input.specs.declared.form.Form.TheVariants.{Clocks};
ghost use Rattle.one_log.specs.inside.Torn.{EndsWhole, IsTornJudged, IsTornAt, HasStoodTorn};
ghost use Rattle.one_log.specs.inside.Torn.{IsMergedTornOf, text_refusal};
ghost use Rattle.torn_text.specs.Mending.{mended};

use event_log::{Item, Log, LogFault, Reader};
use fault_kinds::Refusal;
use filled_log::FilledLog;
use input_reading::{End, Kept, read_all};
use log_input::{Form, Places};
use log_merge::{Merged, merge};
use log_sources::SourceReader;
use pota_base::{List, NoMemory, Refused, Source};
use std::alloc::Global;
use torn_log::{Torn, TornLog, whole_beginning, whole_beginning_of};
use torn_text::mended;

/// A beginning of a run of which everything is logged.
#[derive(Debug, Drop)]
pub struct Beginning {
    /// Its log, all its clocks filled in.
    pub log: Log,
    /// How many logged events of each process it leaves out.
    pub left_out: List<usize>,
}

/// What torn logs are once they were read.
#[derive(Debug, Drop)]
pub enum TornInput {
    /// Bytes of which no fault is due up to the greatest beginning that is logged whole.
    Whole(Beginning),
    /// Bytes of which this fault is due.
    Faulty(Refusal),
    /// Bytes behind which a read failed.
    Failed,
    /// More bytes than a log may have.
    TooLong,
}

// The greatest beginning of the items, or what is refused of it: a fault of an event at its place,
// or else that of the bytes.
fn judge_items(
    alloc: Global,
    items: List<Item>,
    fault: Option<Refusal>,
    places: &Places,
) -> Result<TornInput, NoMemory>
    requires fit { FitFirst items }
    requires whole { EndsWhole items fault }
    ensures { IfOk result (IsTornJudged items fault places.now) }
{
    let torn = whole_beginning(alloc, items)?;
    let Torn { items, left_out } = torn;
    let mut filled = FilledLog::new(alloc);
    match filled.take_all(alloc, items) {
        Ok(()) => {}
        Err(Refused::Fault(found)) => return Ok(TornInput::Faulty(places.place(found))),
        Err(Refused::NoMemory) => return Err(NoMemory),
    }
    match fault {
        Some(why) => Ok(TornInput::Faulty(why)),
        None => {
            let log = filled.into_log();
            Ok(TornInput::Whole(Beginning { log, left_out }))
        }
    }
}

fn text_refusal(fault: Option<LogFault>) -> Option<Refusal>
    ensures { result ≡ text_refusal fault }
{
    match fault {
        Some(fault) => Some(Refusal::Log(fault)),
        None => None,
    }
}

// The mended text of one log.
fn judge_log(alloc: Global, text: &[u8]) -> Result<TornInput, NoMemory>
    ensures { IfOk result (IsTornAt OneLog text.now) }
{
    let mut reader = Reader::new(alloc);
    let fed = reader.feed(text)?;
    let fault = text_refusal(reader.finish());
    judge_items(alloc, fed.items, fault, &Places::Lines)
}

// The same of a log of one batch, without a list of its items.
fn judge_whole(alloc: Global, log: Log, places: &Places) -> Result<TornInput, NoMemory>
    requires batch { length log.batches ≡ 1 }
    requires fit { FitFirst (log_items log) }
    ensures { IfOk result (IsTornJudged (log_items log) None places.now) }
{
    let torn = whole_beginning_of(alloc, log)?;
    let TornLog { log, left_out } = torn;
    let mut filled = FilledLog::new(alloc);
    match filled.take_log(alloc, log) {
        Ok(()) => {
            let log = filled.into_log();
            Ok(TornInput::Whole(Beginning { log, left_out }))
        }
        Err(Refused::Fault(found)) => Ok(TornInput::Faulty(places.place(found))),
        Err(Refused::NoMemory) => Err(NoMemory),
    }
}

// Merges logs of one process each.
fn merge_logs(alloc: Global, logs: &[Log]) -> Result<TornInput, NoMemory>
    requires { CanMerge logs.now }
    ensures { IfOk result (IsMergedTornOf logs.now) }
{
    match merge(alloc, logs) {
        Ok(merged) => {
            let Merged { log, origins } = merged;
            judge_whole(alloc, log, &Places::Origins(origins))
        }
        Err(Refused::Fault(_)) => unreachable!(),
        Err(Refused::NoMemory) => Err(NoMemory),
    }
}

// The mended texts of several logs one behind another.
fn judge_sources(alloc: Global, text: &[u8]) -> Result<TornInput, NoMemory>
    ensures { IfOk result (IsTornAt MergedForm text.now) }
{
    let mut reader = SourceReader::new(alloc);
    reader.feed(text)?;
    match reader.finish() {
        Some(fault) => Ok(TornInput::Faulty(Refusal::Merge(fault))),
        None => {
            let logs = reader.into_logs();
            merge_logs(alloc, logs.as_slice())
        }
    }
}

// Mended texts in this form.
fn judge_text(alloc: Global, form: Form, text: &[u8]) -> Result<TornInput, NoMemory>
    requires { form ≢ Clocks }
    ensures { IfOk result (IsTornAt form text.now) }
{
    match form {
        Form::OneLog => judge_log(alloc, text),
        Form::Merged => judge_sources(alloc, text),
        Form::Clocks => unreachable!(),
    }
}

// Texts with which the input has ended.
fn judge(alloc: Global, form: Form, bytes: &[u8]) -> Result<TornInput, NoMemory>
    requires { form ≢ Clocks }
    ensures { IfOk result (IsTornAt form (mended bytes.now)) }
{
    let text = mended(alloc, bytes)?;
    judge_text(alloc, form, text.as_slice())
}

/// Reads torn logs in this form to the end of the input.
pub fn read_torn<S: Source>(
    alloc: Global,
    form: Form,
    source: &mut S,
) -> Result<TornInput, NoMemory>
    requires { form ≢ Clocks }
    ensures reads { IfOk result (HasStoodTorn form (of_source S.Source source.old source.new)) }
    ensures short { OnErr result (ReadsShort (of_source S.Source source.old source.new)) }
{
    let mut kept = Kept::new(alloc);
    match read_all(alloc, source, &mut kept)? {
        End::Ended => judge(alloc, form, kept.bytes.as_slice()),
        End::Done => Ok(TornInput::TooLong),
        End::Failed => Ok(TornInput::Failed),
    }
}
