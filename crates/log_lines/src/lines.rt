//! Whole lines, without their line feeds.

ghost use Rattle.std.specs.Prelude.{◌≡◌, ◌<◌, List, length, IfOk, IfSome};
ghost use Rattle.std.specs.Str.{bytes_eq};
ghost use Rattle.log_lines.specs.Names.{Name as NameOf, place_of};
ghost use Rattle.log_lines.specs.Spelling.{EventLine, EventLineFits, event_line, VarsLine};
ghost use Rattle.log_lines.specs.Spelling.{VarsLineFits, vars_line, ProcsFit, procs_line};
ghost use Rattle.log_lines.specs.Spelling.{batch_line, end_line};
ghost use Rattle.log_lines.specs.Reading.{event_clock_at, message_at, action_at, event_in, vars_in};
ghost use Rattle.log_lines.specs.Reading.{procs_in, begins_vars};
ghost use Rattle.log_lines.specs.Drafts.{Gives, action_of, event_of, vars_of, texts_of};
ghost use Rattle.log_lines.specs.inside.Drafts.{message_seen, action_seen};

use crate::draft::{ActionDraft, EventDraft, LineError, VarsDraft};
use crate::frames::Frames;
use crate::values::{event_clock_at, names_from, values_at};
use crate::words::{are_distinct, place_among, spaced_name_at, text_at};
use pota_base::{MOST_PROCESSES, number_at};
use pota_names::Name;
use std::alloc::Global;

// ` NAME ID`: the peer of a message, and the message's number.
#[tactic(auto, unfolding(crate::specs::Reading::message_at))]
fn message_at(bytes: &[u8]) -> Option<(&[u8], u64, &[u8])>
    ensures { message_seen result ≡ message_at bytes.now }
{
    let (peer, rest) = spaced_name_at(bytes)?;
    let rest = text_at(b" ", rest)?;
    let (id, rest) = number_at(u64::MAX, rest)?;
    Some((peer, id, rest))
}

#[tactic(auto, unfolding(crate::specs::Reading::action_at))]
fn action_at(bytes: &[u8]) -> Option<(ActionDraft<'_>, &[u8])>
    ensures { action_seen result ≡ action_at bytes.now }
{
    if let Some(rest) = text_at(b"int", bytes) {
        return Some((ActionDraft::Internal, rest));
    }
    if let Some(rest) = text_at(b"send", bytes) {
        let (to, id, rest) = message_at(rest)?;
        return Some((ActionDraft::Send { to, id }, rest));
    }
    let rest = text_at(b"recv", bytes)?;
    let (sender, id, rest) = message_at(rest)?;
    Some((ActionDraft::Receive { sender, id }, rest))
}

// The clock at the front of an event of this process.
fn clock_of<'a>(
    alloc: Global,
    frames: &mut Frames,
    process: Option<usize>,
    bytes: &'a [u8],
) -> Result<(Vec<u32>, &'a [u8]), LineError>
    ensures { Gives (λ x. (x.0.items, x.1.now)) result (event_clock_at bytes.now) }
{
    match process {
        Some(process) => frames.clock_at(alloc, process, bytes),
        None => event_clock_at(alloc, 0, bytes),
    }
}

#[tactic(auto, unfolding(crate::specs::Reading::event_in))]
fn event_in<'a>(
    alloc: Global,
    procs: &[Name],
    frames: &mut Frames,
    line: &'a [u8],
) -> Result<EventDraft<'a>, LineError>
    ensures event { Gives event_of result (event_in line.now) }
    ensures process { IfOk result (λ e. e.process ≡ place_of procs.now e.actor.now) }
    ensures within { IfOk result (λ e. IfSome e.process (λ p. p < length procs.now)) }
{
    let rest = text_at(b"ev", line).ok_or(LineError::Malformed)?;
    let (actor, rest) = spaced_name_at(rest).ok_or(LineError::Malformed)?;
    let rest = text_at(b" ", rest).ok_or(LineError::Malformed)?;
    let process = place_among(procs, actor);
    let (clock, rest) = clock_of(alloc, frames, process, rest)?;
    let rest = text_at(b" ", rest).ok_or(LineError::Malformed)?;
    let (action, rest) = action_at(rest).ok_or(LineError::Malformed)?;
    let settings = values_at(alloc, rest)?;
    Ok(EventDraft {
        actor,
        process,
        clock,
        action,
        settings,
    })
}

#[tactic(auto, unfolding(crate::specs::Reading::vars_in))]
fn vars_in(alloc: Global, line: &[u8]) -> Result<VarsDraft<'_>, LineError>
    ensures { Gives vars_of result (vars_in line.now) }
{
    let rest = text_at(b"vars", line).ok_or(LineError::Malformed)?;
    let (process, rest) = spaced_name_at(rest).ok_or(LineError::Malformed)?;
    let settings = values_at(alloc, rest)?;
    if settings.is_empty() {
        return Err(LineError::Malformed);
    }
    Ok(VarsDraft { process, settings })
}

#[tactic(auto, unfolding(crate::specs::Reading::procs_in))]
fn procs_in(alloc: Global, line: &[u8]) -> Result<Vec<&[u8]>, LineError>
    ensures { Gives (λ names. texts_of names.items) result (procs_in line.now) }
{
    let rest = text_at(b"procs", line).ok_or(LineError::Malformed)?;
    let names = names_from(alloc, MOST_PROCESSES, rest)?;
    if names.is_empty() {
        return Err(LineError::Malformed);
    }
    if !are_distinct(&names) {
        return Err(LineError::Malformed);
    }
    Ok(names)
}

/// The event of one of these processes that the line spells. The frames are those of the processes,
/// and make no difference to what is read.
pub fn read_event<'a>(
    alloc: Global,
    procs: &[Name],
    frames: &mut Frames,
    line: &'a [u8],
) -> Result<EventDraft<'a>, LineError>
    // What is read is spelled so.
    ensures found { IfOk result (λ e. EventLineFits (event_of e)
        × (line.now ≡ event_line (event_of e))) }
    // What is spelled so is read, unless memory runs out.
    ensures only { (e : EventLine) → EventLineFits e → line.now ≡ event_line e
        → Gives event_of result (Some e) }
    ensures exact { Gives event_of result (event_in line.now) }
    ensures process { IfOk result (λ e. e.process ≡ place_of procs.now e.actor.now) }
    ensures within { IfOk result (λ e. IfSome e.process (λ p. p < length procs.now)) }
{
    event_in(alloc, procs, frames, line)
}

/// The variables of a process, with their opening values, that the line spells.
pub fn read_vars(alloc: Global, line: &[u8]) -> Result<VarsDraft<'_>, LineError>
    ensures found { IfOk result (λ v. VarsLineFits (vars_of v)
        × (line.now ≡ vars_line (vars_of v))) }
    ensures only { (v : VarsLine) → VarsLineFits v → line.now ≡ vars_line v
        → Gives vars_of result (Some v) }
    ensures exact { Gives vars_of result (vars_in line.now) }
{
    vars_in(alloc, line)
}

/// The names of the processes that the line spells, in their order.
pub fn read_procs(alloc: Global, line: &[u8]) -> Result<Vec<&[u8]>, LineError>
    ensures found { IfOk result (λ names. ProcsFit (texts_of names.items)
        × (line.now ≡ procs_line (texts_of names.items))) }
    ensures only { (names : List NameOf) → ProcsFit names → line.now ≡ procs_line names
        → Gives (λ ns. texts_of ns.items) result (Some names) }
    ensures exact { Gives (λ names. texts_of names.items) result (procs_in line.now) }
{
    procs_in(alloc, line)
}

/// Whether the line begins with the four bytes `vars`.
pub fn begins_vars(line: &[u8]) -> bool
    ensures { result ≡ begins_vars line.now }
{
    text_at(b"vars", line).is_some()
}

pub fn is_batch(line: &[u8]) -> bool
    ensures { result ≡ bytes_eq line.now batch_line }
{
    line == b"batch".as_slice()
}

pub fn is_end(line: &[u8]) -> bool
    ensures { result ≡ bytes_eq line.now end_line }
{
    line == b"end".as_slice()
}
