//! Which event of another process doesn't wait for the one that ends a value.
ghost use Rattle.std.specs.Prelude.{◌≡◌, ◌<◌, ◌≤◌, [], length, map, get_or, IfSome};
ghost use Rattle.pota_base.specs.Shape.{HasEvent};
ghost use Rattle.report_lines.specs.Spelling.{CutFits};
ghost use Rattle.run_model.specs.Cut.{count};
ghost use Rattle.view_parts.specs.Parts.{place};
ghost use Rattle.view_text.specs.Ties.{last_named, counts, untied_in, untied};

use cut_lattice::Cut;
use event_log::States;
use pota_base::EventId;
use rctl_grammar::Token;
use view_parts::{Sought, event_at, name_at, names, sets_some};

// The position of the last of so many events of a process that sets a variable which the formula of
// these tokens names.
fn last_named(states: &States, tokens: &[Token], process: u32, events: u32) -> Option<u32>
    requires process { process < length states.now.events }
    requires events { events ≤ length (get_or states.now.events process []) }
    ensures last { result ≡ last_named states.now tokens.now process events }
    ensures there { IfSome result (λ position.
        HasEvent (map length states.now.events) (place process position)) }
{
    let mut position = events;
    while position > 0 {
        if sets_some(states, tokens, EventId { process, position }) {
            return Some(position);
        }
        position -= 1;
    }
    None
}

// How many events of the process a clock counts.
fn counted(clock: &[u32], process: u32) -> u32
    ensures { result ≡ count clock.now process }
{
    match clock.get(process as usize) {
        Some(events) => *events,
        None => 0,
    }
}

// Whether the clock of the event counts the other one.
fn counts(states: &States, event: EventId, other: EventId) -> bool
    requires { HasEvent (map length states.now.events) event }
    ensures { result ≡ counts states.now event other }
{
    other.position <= counted(event_at(states, event).clock.as_slice(), other.process)
}

// The event of this process that last set a named variable within the cut, unless it waits for the
// one that ends a value.
fn untied_in(
    states: &States,
    tokens: &[Token],
    cut: &Cut,
    ended: EventId,
    process: u32,
) -> Option<EventId>
    requires process { process < length states.now.events }
    requires cut { CutFits (map length states.now.events) cut.now }
    ensures { result ≡ untied_in states.now tokens.now cut.now ended process }
{
    let owner = name_at(states.header().procs.as_slice(), process);
    if !names(Sought::Owner(owner), tokens) {
        return None;
    }
    match last_named(states, tokens, process, cut.get(process)) {
        None => None,
        Some(position) => {
            let event = EventId { process, position };
            if process == ended.process || counts(states, event, ended) {
                None
            } else {
                Some(event)
            }
        }
    }
}

/// The first event of another process that last set a named variable within the cut and doesn't
/// count the one that ends a value.
pub fn untied(states: &States, tokens: &[Token], cut: &Cut, ended: EventId) -> Option<EventId>
    requires { CutFits (map length states.now.events) cut.now }
    ensures { result ≡ untied states.now tokens.now cut.now ended }
{
    for process in 0..states.header().procs.len() as u32 {
        if let Some(event) = untied_in(states, tokens, cut, ended, process) {
            return Some(event);
        }
    }
    None
}
