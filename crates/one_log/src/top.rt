//! The one call that the program runs.
ghost use Rattle.std.specs.Prelude.{◌≡◌, ◌++◌, true, false, [], None, Some};
ghost use Rattle.std.specs.Prelude.{map, string_bytes, IfOk, OnOk};
ghost use Rattle.pota_base.specs.Changes.{of_sink, of_source};
ghost use Rattle.fault_line.specs.Lines.{Told};
ghost use Rattle.kept_log.specs.Keeping.{CanBeKept};
ghost use Rattle.log_writing.specs.Spelling.{HasText};
ghost use Rattle.log_rules.specs.WholeLogs.{all_of};
ghost use Rattle.one_log.specs.Calm.{IsCalm};
ghost use Rattle.one_log.specs.Asking.{asked_by};
ghost use Rattle.one_log.specs.Faults.{exit_status};
ghost use Rattle.one_log.specs.LeftOut.{left_out_lines, told_of};
ghost use Rattle.one_log.specs.Logging.{batches_by, kept_of, asked_text, HasLogged};
ghost use Rattle.one_log.specs.inside.Inputs.{PutsLog};

use crate::asking::{Asked, asked_by};
use crate::fault::Fault;
use crate::left_out::left_out_lines;
use crate::telling::tell;
use crate::torn::{Beginning, TornInput, read_torn};
use event_log::{Event, Log};
use kept_log::{keep, unknown_word};
use kept_names::Names;
use log_input::{Input, read_input};
use log_writing::text_of;
use pota_base::{Bytes, LONGEST_LOG, List, NoMemory, Sink, Source, write_all};
use std::alloc::Global;

/// What a run tells its caller.
#[derive(Debug, Drop)]
pub struct Logged {
    /// None exactly where the log was written.
    pub fault: Option<Fault>,
    /// The lines that tell how many events of each process the log leaves out, where it is that of
    /// torn logs.
    pub left_out: Bytes,
}

impl Logged {
    // Without lines.
    fn of(alloc: Global, fault: Option<Fault>) -> Logged
        ensures fault { result.fault ≡ fault }
        ensures none { result.left_out ≡ [] }
    {
        Logged {
            fault,
            left_out: List::new(alloc),
        }
    }

    /// The exit status: 0 where the log was written, and else that of the fault.
    pub fn status(&self) -> u8
        ensures { result ≡ exit_status self.now.fault }
    {
        match &self.fault {
            None => 0,
            Some(fault) => fault.status(),
        }
    }
}

// The events of a batch behind those before.
fn append(all: &mut List<Event>, batch: List<Event>) -> Result<(), NoMemory>
    ensures { OnOk result (all.new ≡ all.old ++ batch) }
{
    let mut rest = batch.into_vec().into_iter();
    while let Some(event) = rest.next() {
        all.push(event)?;
    }
    Ok(())
}

// All events of the batches, in one.
fn in_one_batch(alloc: Global, batches: List<List<Event>>) -> Result<List<List<Event>>, NoMemory>
    ensures { IfOk result (λ one. one ≡ batches_by true batches) }
{
    let mut all = List::new(alloc);
    let mut rest = batches.into_vec().into_iter();
    while let Some(batch) = rest.next() {
        append(&mut all, batch)?;
    }
    let mut one = List::new(alloc);
    one.push(all)?;
    Ok(one)
}

// The batches as they are, or all events in one.
fn batches_by(
    alloc: Global,
    one_batch: bool,
    batches: List<List<Event>>,
) -> Result<List<List<Event>>, NoMemory>
    ensures { IfOk result (λ given. given ≡ batches_by one_batch batches) }
{
    if one_batch {
        in_one_batch(alloc, batches)
    } else {
        Ok(batches)
    }
}

// All of the log, or where names are given what is named of it.
fn kept_of(alloc: Global, names: &Names, log: Log) -> Result<Log, NoMemory>
    requires { CanBeKept log }
    ensures kept { IfOk result (λ kept. all_of kept ≡ kept_of names.now (all_of log)) }
    ensures text { IfOk result HasText }
{
    if names.is_empty() {
        return Ok(log);
    }
    keep(alloc, &log, names)
}

// The text of what is asked for of a log, in version 1.
fn text_by(alloc: Global, asked: &Asked, log: Log) -> Result<Bytes, NoMemory>
    requires { CanBeKept log }
    ensures { IfOk result (λ text. text ≡ asked_text asked.now (all_of log)) }
{
    let kept = kept_of(alloc, &asked.names, log)?;
    let Log {
        mut header,
        batches,
    } = kept;
    header.version = 1;
    let batches = batches_by(alloc, asked.flags.one_batch, batches)?;
    text_of(alloc, &Log { header, batches })
}

// Writes what is asked for of a log, where it has all that the words name.
fn put_log<O: Sink>(
    alloc: Global,
    words: &[String],
    asked: &Asked,
    log: Log,
    out: &mut O,
) -> Option<Fault>
    requires { CanBeKept log }
    ensures { PutsLog (map string_bytes words.now) asked.now (all_of log)
        (of_sink O.Sink out.old out.new) result }
{
    match unknown_word(alloc, &log.header, words) {
        Ok(None) => {}
        Ok(Some(word)) => return Some(Fault::Unknown { word }),
        Err(NoMemory) => return Some(Fault::Memory),
    }
    let Ok(text) = text_by(alloc, asked, log) else {
        return Some(Fault::Memory);
    };
    if text.len() > LONGEST_LOG {
        return Some(Fault::TooLong);
    }
    match write_all(out, text.as_slice()) {
        Ok(()) => None,
        Err(_) => Some(Fault::Write),
    }
}

// Writes what is asked for of the log of a beginning.
fn put_beginning<O: Sink>(
    alloc: Global,
    words: &[String],
    asked: &Asked,
    begun: Beginning,
    out: &mut O,
) -> Logged
    requires { CanBeKept begun.log }
    ensures puts { PutsLog (map string_bytes words.now) asked.now (all_of begun.log)
        (of_sink O.Sink out.old out.new) result.fault }
    ensures lines { result.fault ≡ None
        → result.left_out ≡ left_out_lines begun.log.header.procs begun.left_out }
{
    let Beginning { log, left_out } = begun;
    let Ok(lines) = left_out_lines(alloc, log.header.procs.as_slice(), left_out.as_slice()) else {
        return Logged::of(alloc, Some(Fault::Memory));
    };
    match put_log(alloc, words, asked, log, out) {
        None => Logged {
            fault: None,
            left_out: lines,
        },
        Some(fault) => Logged::of(alloc, Some(fault)),
    }
}

// Reads torn logs and writes the log of the greatest beginning that is logged whole.
fn log_torn<S: Source, O: Sink>(
    alloc: Global,
    words: &[String],
    asked: &Asked,
    input: &mut S,
    out: &mut O,
) -> Logged
    requires asks { asked_by (map string_bytes words.now) ≡ Some asked.now }
    requires torn { asked.now.flags.torn ≡ true }
    ensures logged { HasLogged (of_source S.Source input.old input.new)
        (of_sink O.Sink out.old out.new) (map string_bytes words.now) result.fault result.left_out }
    ensures calm { IsCalm (S.faults input.old) (S.faults input.new) result.fault }
{
    match read_torn(alloc, asked.flags.form, input) {
        Ok(TornInput::Whole(begun)) => put_beginning(alloc, words, asked, begun, out),
        Ok(TornInput::Faulty(refusal)) => Logged::of(alloc, Some(Fault::Refused(refusal))),
        Ok(TornInput::Failed) => Logged::of(alloc, Some(Fault::Read)),
        Ok(TornInput::TooLong) => Logged::of(alloc, Some(Fault::TooLong)),
        Err(NoMemory) => Logged::of(alloc, Some(Fault::Memory)),
    }
}

// Reads an input that is not torn and writes its log.
fn log_whole<S: Source, O: Sink>(
    alloc: Global,
    words: &[String],
    asked: &Asked,
    input: &mut S,
    out: &mut O,
) -> Option<Fault>
    requires asks { asked_by (map string_bytes words.now) ≡ Some asked.now }
    requires plain { asked.now.flags.torn ≡ false }
    ensures logged { HasLogged (of_source S.Source input.old input.new)
        (of_sink O.Sink out.old out.new) (map string_bytes words.now) result [] }
    ensures calm { IsCalm (S.faults input.old) (S.faults input.new) result }
{
    match read_input(alloc, asked.flags.form, input) {
        Ok(Input::Whole(log, places)) => {
            drop(places);
            put_log(alloc, words, asked, log, out)
        }
        Ok(Input::Faulty(refusal, line)) => {
            drop(line);
            Some(Fault::Refused(refusal))
        }
        Ok(Input::Failed) => Some(Fault::Read),
        Err(NoMemory) => Some(Fault::Memory),
    }
}

// Reads the input and writes the log that the words ask for.
fn answer<S: Source, O: Sink>(alloc: Global, words: &[String], input: &mut S, out: &mut O) -> Logged
    ensures logged { HasLogged (of_source S.Source input.old input.new)
        (of_sink O.Sink out.old out.new) (map string_bytes words.now) result.fault result.left_out }
    ensures calm { IsCalm (S.faults input.old) (S.faults input.new) result.fault }
{
    let asked = match asked_by(alloc, words) {
        Ok(Some(asked)) => asked,
        Ok(None) => return Logged::of(alloc, Some(Fault::Usage)),
        Err(NoMemory) => return Logged::of(alloc, Some(Fault::Memory)),
    };
    if asked.flags.torn {
        log_torn(alloc, words, &asked, input, out)
    } else {
        let fault = log_whole(alloc, words, &asked, input, out);
        Logged::of(alloc, fault)
    }
}

/// Writes the one log that an input is, in the form that the words ask for: in version 1, with
/// every clock, and its batches as they are read or all events in one; or what is named of it
/// alone.
///
/// The words are the command line without the program's name. The log goes to `out`, and to `diag`
/// one line that tells why there is none, or where the log is that of torn logs one line for each
/// process with the number of its events that are left out.
pub fn write_one_log<S: Source, O: Sink, D: Sink>(
    alloc: Global,
    words: &[String],
    input: &mut S,
    out: &mut O,
    diag: &mut D,
) -> Logged
    ensures logged { HasLogged (of_source S.Source input.old input.new)
        (of_sink O.Sink out.old out.new) (map string_bytes words.now) result.fault result.left_out }
    ensures calm { IsCalm (S.faults input.old) (S.faults input.new) result.fault }
    ensures told { Told (of_sink D.Sink diag.old diag.new)
        (told_of (map string_bytes words.now) result.fault result.left_out) }
{
    let logged = answer(alloc, words, input, out);
    tell(diag, words, &logged.fault, logged.left_out.as_slice());
    logged
}
