//! The names of an event line as numbers.

ghost use Rattle.std.specs.Prelude.{◌≡◌, ◌<◌, ◌^◌, [], length, All, IfSome};
ghost use Rattle.log_lines.specs.Names.{place_of};
ghost use Rattle.log_lines.specs.Drafts.{action_of, event_of, value_of, values_of};
ghost use Rattle.event_log.specs.Numbers.{known, binding_names, variables_at, kind_in};
ghost use Rattle.event_log.specs.inside.Numbers.{Agrees};
ghost use Rattle.event_log.specs.Numbers.{is_to_itself, may_stand, has_width, assign_in};
ghost use Rattle.event_log.specs.Numbers.{assigns_in, event_named};
ghost use Rattle.event_log.specs.declared.item.LogCode.TheVariants.{UnknownProcess as UnknownProcessFault};

use crate::item::LogCode;
use crate::log::{Assign, Binding, Event, Kind};
use log_lines::{ActionDraft, EventDraft, Name, Setting, place_among, place_of};
use pota_base::{List, MOST_EVENTS, Refused};
use std::alloc::Global;

// The number of a process by its place among the names.
fn process_at(place: Option<usize>) -> Result<u32, Refused<LogCode>>
    requires { IfSome place (λ p. p < 2 ^ 32) }
    ensures { Agrees result (known UnknownProcessFault place) }
{
    match place {
        Some(place) => Ok(place as u32),
        None => Err(Refused::Fault(LogCode::UnknownProcess)),
    }
}

/// The number of the process of this name.
pub fn process_of(procs: &[Name], name: &[u8]) -> Result<u32, Refused<LogCode>>
    requires { length procs.now < 2 ^ 32 }
    ensures { Agrees result (known UnknownProcessFault (place_of procs.now name.now)) }
{
    process_at(place_among(procs, name))
}

fn kind_in(procs: &[Name], action: ActionDraft<'_>) -> Result<Kind, Refused<LogCode>>
    requires { length procs.now < 2 ^ 32 }
    ensures { Agrees result (kind_in procs.now (action_of action.entry)) }
{
    match action {
        ActionDraft::Internal => Ok(Kind::Internal),
        ActionDraft::Send { to, id } => {
            let to = process_of(procs, to)?;
            Ok(Kind::Send { to, id })
        }
        ActionDraft::Receive { sender, id } => {
            let sender = process_of(procs, sender)?;
            Ok(Kind::Receive { sender, id })
        }
    }
}

fn is_to_itself(process: u32, kind: Kind) -> bool
    ensures { result ≡ is_to_itself process kind }
{
    match kind {
        Kind::Internal => false,
        Kind::Send { to, .. } => to == process,
        Kind::Receive { sender, .. } => sender == process,
    }
}

// Whether the clock is one of this version: it may be left out in version 2 alone.
fn may_stand(version: u32, clock: &[u32]) -> bool
    ensures { result ≡ may_stand version clock.now }
{
    !clock.is_empty() || version == 2
}

// Whether the clock has a count for each process, or is left out.
fn has_width(procs: usize, clock: &[u32]) -> bool
    ensures { result ≡ has_width procs clock.now }
{
    clock.len() == procs || clock.is_empty()
}

/// The variables of a process.
pub fn variables_at(variables: &[List<Binding>], process: u32) -> &[Binding]
    ensures list { result.now ≡ variables_at variables.now process }
{
    match variables.get(process as usize) {
        Some(bindings) => bindings.as_slice(),
        None => &[],
    }
}

fn assign_in(variables: &[Binding], setting: Setting<'_>) -> Result<Assign, Refused<LogCode>>
    requires { length variables.now < 2 ^ 32 }
    ensures { Agrees result (assign_in (binding_names variables.now) (value_of setting.entry)) }
{
    match place_of(variables, setting.name) {
        Some(place) => Ok(Assign {
            variable: place as u32,
            value: setting.value,
        }),
        None => Err(Refused::Fault(LogCode::UnknownVariable)),
    }
}

fn assigns_in(
    alloc: Global,
    variables: &[Binding],
    settings: &[Setting<'_>],
) -> Result<List<Assign>, Refused<LogCode>>
    requires { length variables.now < 2 ^ 32 }
    ensures { Agrees result (assigns_in (binding_names variables.now) [] (values_of settings.now)) }
{
    let mut assigns = List::with_capacity(alloc, settings.len())?;
    for setting in settings {
        let assign = assign_in(variables, *setting)?;
        assigns.push(assign)?;
    }
    Ok(assigns)
}

/// The event of a line, after `events` events of the log. The acting process is looked up first,
/// then the peer.
#[tactic(auto, unfolding(crate::specs::Numbers::event_named))]
pub fn event_named(
    alloc: Global,
    version: u32,
    procs: &[Name],
    variables: &[List<Binding>],
    line: u32,
    events: u32,
    draft: EventDraft<'_>,
) -> Result<Event, Refused<LogCode>>
    requires few { length procs.now < 2 ^ 32 }
    requires narrow { All (λ bindings. length bindings < 2 ^ 32) variables.now }
    requires place { draft.process ≡ place_of procs.now draft.actor.now }
    requires within { IfSome draft.process (λ p. p < length procs.now) }
    ensures { Agrees result
        (event_named version procs.now variables.now line events (event_of draft.entry)) }
{
    if !may_stand(version, &draft.clock) {
        return Err(Refused::Fault(LogCode::BadLine));
    }
    let process = process_at(draft.process)?;
    let kind = kind_in(procs, draft.action)?;
    if !has_width(procs.len(), &draft.clock) {
        return Err(Refused::Fault(LogCode::ClockWidth));
    }
    if is_to_itself(process, kind) {
        return Err(Refused::Fault(LogCode::SelfMessage));
    }
    let settings = draft.settings.as_slice();
    let assigns = assigns_in(alloc, variables_at(variables, process), settings)?;
    if events >= MOST_EVENTS as u32 {
        return Err(Refused::Fault(LogCode::TooManyEvents));
    }
    Ok(Event {
        process,
        line,
        clock: List::from_vec(draft.clock),
        kind,
        assigns,
    })
}
