//! Which events a formula is about.
ghost use Rattle.std.specs.Prelude.{◌≡◌, length, map};
ghost use Rattle.pota_base.specs.Shape.{HasEvent};
ghost use Rattle.view_parts.specs.About.{is_on_named, sets_named, sets_some, is_about};

use crate::naming::{Sought, names};
use crate::parts::{event_at, name_at, variable_name};
use event_log::{Assign, Kind, States};
use pota_base::EventId;
use pota_names::Name;
use rctl_grammar::Token;

// Whether an event of the process sends or receives on a channel that the tokens name.
fn is_on_named(procs: &[Name], tokens: &[Token], process: u32, kind: Kind) -> bool
    ensures { result ≡ is_on_named procs.now tokens.now process kind }
{
    let own = name_at(procs, process);
    match kind {
        Kind::Internal => false,
        Kind::Send { to, .. } => names(Sought::Channel(own, name_at(procs, to)), tokens),
        Kind::Receive { sender, .. } => names(Sought::Channel(name_at(procs, sender), own), tokens),
    }
}

// Whether the assignment is one of a variable that the tokens name.
fn sets_named(states: &States, tokens: &[Token], process: u32, assign: Assign) -> bool
    ensures { result ≡ sets_named states.now tokens.now process assign }
{
    let owner = name_at(states.header().procs.as_slice(), process);
    let variable = variable_name(states, process, assign.variable);
    names(Sought::Variable(owner, variable), tokens)
}

/// Whether the event sets a variable that the formula of these tokens names.
pub fn sets_some(states: &States, tokens: &[Token], event: EventId) -> bool
    requires { HasEvent (map length states.now.events) event }
    ensures { result ≡ sets_some states.now tokens.now event }
{
    event_at(states, event).assigns.as_slice().iter().any(|assign| sets_named(
        states,
        tokens,
        event.process,
        *assign,
    ))
}

/// Whether the event sets a variable that the formula of these tokens names, sends or receives on a
/// channel that it names, or is of a process with a watch in it.
pub fn is_about(states: &States, tokens: &[Token], event: EventId) -> bool
    requires { HasEvent (map length states.now.events) event }
    ensures { result ≡ is_about states.now tokens.now event }
{
    let procs = states.header().procs.as_slice();
    let process = event.process;
    sets_some(states, tokens, event)
        || is_on_named(procs, tokens, process, event_at(states, event).kind)
        || names(Sought::Watch(name_at(procs, process)), tokens)
}
