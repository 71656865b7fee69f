//! What both views say of an event.
ghost use Rattle.std.specs.Prelude.{◌≡◌, ◌++◌, [], ◌∷◌, length, map, OnOk};
ghost use Rattle.std.specs.Fmt.{decimal};
ghost use Rattle.log_lines.specs.Spelling.{action_text, values_text};
ghost use Rattle.event_log.specs.LogText.{name_at, action_of, named_values};
ghost use Rattle.event_log.specs.Numbers.{binding_names, variables_at};
ghost use Rattle.pota_base.specs.Shape.{HasEvent};
ghost use Rattle.view_parts.specs.Parts.{event_at, place_text, line_text, kind_text, assigns_text};
ghost use Rattle.view_parts.specs.Parts.{variable_name};

use event_log::{Assign, Binding, Event, Kind, States, put_spaced};
use pota_base::{Bytes, EventId, List, NoMemory, put_i64, put_u64};
use pota_names::Name;

/// The name at this place, and none of its bytes where there is none.
pub fn name_at(names: &[Name], place: u32) -> &[u8]
    ensures { result.now ≡ name_at names.now place }
{
    match names.get(place as usize) {
        Some(name) => name.as_bytes(),
        None => &[],
    }
}

// The name of a variable.
fn binding_at(variables: &[Binding], place: u32) -> &[u8]
    ensures { result.now ≡ name_at (binding_names variables.now) place }
{
    match variables.get(place as usize) {
        Some(variable) => variable.name.as_bytes(),
        None => &[],
    }
}

/// The variables of a process, and none where the process isn't there.
pub fn variables_at(vars: &[List<Binding>], process: u32) -> &[Binding]
    ensures { result.now ≡ variables_at vars.now process }
{
    match vars.get(process as usize) {
        Some(variables) => variables.as_slice(),
        None => &[],
    }
}

/// The event at a position of a process.
pub fn event_at(states: &States, event: EventId) -> &Event
    requires { HasEvent (map length states.now.events) event }
    ensures { result.now ≡ event_at states.now event }
{
    states.event(event)
}

/// The name of a variable of a process.
pub fn variable_name(states: &States, process: u32, variable: u32) -> &[u8]
    ensures { result.now ≡ variable_name states.now process variable }
{
    binding_at(
        variables_at(states.header().vars.as_slice(), process),
        variable,
    )
}

/// Appends `NAME POSITION`.
pub fn put_place(out: &mut Bytes, states: &States, event: EventId) -> Result<(), NoMemory>
    ensures { OnOk result (out.new ≡ out.old ++ place_text states.now.header.procs event) }
{
    let procs = states.header().procs.as_slice();
    out.extend_from_slice(name_at(procs, event.process))?;
    out.push(b' ')?;
    put_u64(out, u64::from(event.position))
}

/// Appends `line NUMBER`, the line of the log that spells the event.
pub fn put_line_of(out: &mut Bytes, states: &States, event: EventId) -> Result<(), NoMemory>
    requires { HasEvent (map length states.now.events) event }
    ensures { OnOk result (out.new ≡ out.old ++ line_text states.now event) }
{
    out.extend_from_slice(b"line ")?;
    put_u64(out, u64::from(event_at(states, event).line))
}

// Appends the word, the other process and the number of a message.
fn put_message(out: &mut Bytes, word: &[u8], peer: &[u8], id: u64) -> Result<(), NoMemory>
    ensures { OnOk result (out.new ≡ out.old ++ (word.now ++ 32 ∷ (peer.now ++ 32 ∷ decimal id))) }
{
    out.extend_from_slice(word)?;
    put_spaced(out, peer)?;
    out.push(b' ')?;
    put_u64(out, id)
}

// Appends what an event does beside its assignments.
fn put_action(out: &mut Bytes, procs: &[Name], kind: Kind) -> Result<(), NoMemory>
    ensures { OnOk result (out.new ≡ out.old ++ action_text (action_of procs.now kind)) }
{
    match kind {
        Kind::Internal => out.extend_from_slice(b"int"),
        Kind::Send { to, id } => put_message(out, b"send", name_at(procs, to), id),
        Kind::Receive { sender, id } => put_message(out, b"recv", name_at(procs, sender), id),
    }
}

/// Appends what the event does beside its assignments.
pub fn put_kind(out: &mut Bytes, states: &States, event: EventId) -> Result<(), NoMemory>
    requires { HasEvent (map length states.now.events) event }
    ensures { OnOk result (out.new ≡ out.old ++ kind_text states.now event) }
{
    let procs = states.header().procs.as_slice();
    put_action(out, procs, event_at(states, event).kind)
}

// Appends ` NAME=INT`.
fn put_assign(out: &mut Bytes, variables: &[Binding], assign: Assign) -> Result<(), NoMemory>
    ensures { OnOk result (out.new
        ≡ out.old ++ values_text (named_values variables.now (assign ∷ []))) }
{
    put_spaced(out, binding_at(variables, assign.variable))?;
    out.push(b'=')?;
    put_i64(out, assign.value)
}

// Appends ` NAME=INT` for each of the assignments.
fn put_each_assign(
    out: &mut Bytes,
    variables: &[Binding],
    assigns: &[Assign],
) -> Result<(), NoMemory>
    ensures { OnOk result (out.new
        ≡ out.old ++ values_text (named_values variables.now assigns.now)) }
{
    for assign in assigns {
        put_assign(out, variables, *assign)?;
    }
    Ok(())
}

/// Appends ` NAME=INT` for each assignment of the event.
pub fn put_assigns(out: &mut Bytes, states: &States, event: EventId) -> Result<(), NoMemory>
    requires { HasEvent (map length states.now.events) event }
    ensures { OnOk result (out.new ≡ out.old ++ assigns_text states.now event) }
{
    let variables = variables_at(states.header().vars.as_slice(), event.process);
    put_each_assign(out, variables, event_at(states, event).assigns.as_slice())
}
