//! The values at a cut.
ghost use Rattle.std.specs.Prelude.{◌≡◌, ◌<◌, ◌≤◌, ◌++◌, ◌∷◌, [], length, map, get_or, codes, OnOk};
ghost use Rattle.std.specs.Prelude.{IfSome};
ghost use Rattle.pota_base.specs.Shape.{HasEvent};
ghost use Rattle.report_lines.specs.Spelling.{CutFits};
ghost use Rattle.view_parts.specs.Parts.{place};
ghost use Rattle.view_text.specs.Text.{set_by, owned, value_text, value_since, ending, untied_text};
ghost use Rattle.view_text.specs.Text.{value_row, named_row, process_rows, value_rows};
ghost use Rattle.view_text.specs.Ties.{untied};

use crate::events::put_lined;
use crate::latest::{last_setting, next_setting};
use crate::ties::untied;
use crate::transit::put_channel_rows;
use cut_lattice::Cut;
use event_log::States;
use pota_base::{Bytes, EventId, MOST_VARIABLES, NoMemory, put_i64};
use rctl_grammar::Token;
use view_parts::{Sought, name_at, names, put_place, variable_name, variables_at};

// Appends the event that sets a value, or what is said where none does.
fn put_set_by(
    out: &mut Bytes,
    states: &States,
    process: u32,
    otherwise: &[u8],
    setting: Option<u32>,
) -> Result<(), NoMemory>
    requires { IfSome setting (λ position.
        HasEvent (map length states.now.events) (place process position)) }
    ensures { OnOk result (out.new
        ≡ out.old ++ set_by states.now process otherwise.now setting) }
{
    match setting {
        None => out.extend_from_slice(otherwise),
        Some(position) => put_lined(out, states, EventId { process, position }),
    }
}

// Appends `PROCESS.VARIABLE = `.
fn put_owned(out: &mut Bytes, states: &States, process: u32, variable: u32) -> Result<(), NoMemory>
    ensures { OnOk result (out.new ≡ out.old ++ owned states.now process variable) }
{
    out.extend_from_slice(name_at(states.header().procs.as_slice(), process))?;
    out.extend_from_slice(b".")?;
    out.extend_from_slice(variable_name(states, process, variable))?;
    out.extend_from_slice(b" = ")
}

// Appends the value of a variable after so many events.
fn put_value(
    out: &mut Bytes,
    states: &States,
    process: u32,
    variable: u32,
    events: u32,
) -> Result<(), NoMemory>
    requires process { process < length states.now.events }
    requires variable { variable < length (get_or states.now.header.vars process []) }
    requires events { events ≤ length (get_or states.now.events process []) }
    ensures { OnOk result (out.new ≡ out.old ++ value_text states.now process variable events) }
{
    put_i64(out, states.value(process, events, variable))
}

// Appends the value of a variable at the cut, and the event that last set it.
fn put_value_since(
    out: &mut Bytes,
    states: &States,
    cut: &Cut,
    process: u32,
    variable: u32,
) -> Result<(), NoMemory>
    requires process { process < length states.now.events }
    requires variable { variable < length (get_or states.now.header.vars process []) }
    requires cut { CutFits (map length states.now.events) cut.now }
    ensures { OnOk result (out.new ≡ out.old ++ value_since states.now cut.now process variable) }
{
    out.extend_from_slice(b"       there  ")?;
    put_owned(out, states, process, variable)?;
    let events = cut.get(process);
    put_value(out, states, process, variable, events)?;
    out.extend_from_slice(b", since ")?;
    let setting = last_setting(states, process, variable, events);
    put_set_by(out, states, process, b"the start", setting)
}

// Appends an event that doesn't count this one, where there is one.
fn put_untied(
    out: &mut Bytes,
    states: &States,
    tokens: &[Token],
    cut: &Cut,
    ended: EventId,
) -> Result<(), NoMemory>
    requires { CutFits (map length states.now.events) cut.now }
    ensures { OnOk result (out.new
        ≡ out.old ++ untied_text states.now (untied states.now tokens.now cut.now ended)) }
{
    let Some(event) = untied(states, tokens, cut, ended) else {
        return Ok(());
    };
    out.extend_from_slice(b", which ")?;
    put_place(out, states, event)?;
    out.extend_from_slice(b" doesn't count")
}

// Appends the event that ends a value, and one that doesn't wait for it.
fn put_ending(
    out: &mut Bytes,
    states: &States,
    tokens: &[Token],
    cut: &Cut,
    process: u32,
    setting: Option<u32>,
) -> Result<(), NoMemory>
    requires setting { IfSome setting (λ position.
        HasEvent (map length states.now.events) (place process position)) }
    requires cut { CutFits (map length states.now.events) cut.now }
    ensures { OnOk result (out.new ≡ out.old ++ ending states.now tokens.now cut.now process
        setting) }
{
    out.extend_from_slice(b", until ")?;
    put_set_by(out, states, process, b"the end", setting)?;
    match setting {
        None => {}
        Some(position) => put_untied(out, states, tokens, cut, EventId { process, position })?,
    }
    out.push(b'\n')
}

// Appends the value of a variable at the cut, the event that last set it, the one that sets it
// next, and an event at the cut that doesn't wait for that one.
fn put_value_row(
    out: &mut Bytes,
    states: &States,
    tokens: &[Token],
    cut: &Cut,
    process: u32,
    variable: u32,
) -> Result<(), NoMemory>
    requires process { process < length states.now.events }
    requires variable { variable < length (get_or states.now.header.vars process []) }
    requires cut { CutFits (map length states.now.events) cut.now }
    ensures { OnOk result (out.new
        ≡ out.old ++ value_row states.now tokens.now cut.now process variable) }
{
    put_value_since(out, states, cut, process, variable)?;
    let setting = next_setting(states, process, variable, cut.get(process));
    put_ending(out, states, tokens, cut, process, setting)
}

// The same of a variable that the formula names, and else nothing.
fn put_named_row(
    out: &mut Bytes,
    states: &States,
    tokens: &[Token],
    cut: &Cut,
    process: u32,
    variable: u32,
) -> Result<(), NoMemory>
    requires process { process < length states.now.events }
    requires variable { variable < length (get_or states.now.header.vars process []) }
    requires cut { CutFits (map length states.now.events) cut.now }
    ensures { OnOk result (out.new
        ≡ out.old ++ named_row states.now tokens.now cut.now process variable) }
{
    let owner = name_at(states.header().procs.as_slice(), process);
    let sought = Sought::Variable(owner, variable_name(states, process, variable));
    if names(sought, tokens) {
        return put_value_row(out, states, tokens, cut, process, variable);
    }
    Ok(())
}

// The same of each variable of a process.
fn put_process_rows(
    out: &mut Bytes,
    states: &States,
    tokens: &[Token],
    cut: &Cut,
    process: u32,
) -> Result<(), NoMemory>
    requires process { process < length states.now.events }
    requires cut { CutFits (map length states.now.events) cut.now }
    ensures { OnOk result (out.new
        ≡ out.old ++ process_rows states.now tokens.now cut.now process) }
{
    let variables = variables_at(states.header().vars.as_slice(), process);
    for variable in 0..variables.len().min(MOST_VARIABLES) as u32 {
        put_named_row(out, states, tokens, cut, process, variable)?;
    }
    Ok(())
}

/// Appends the values of all variables that the formula of these tokens names at the cut, and how
/// many messages are in transit on each channel that it names.
pub fn put_value_rows(
    out: &mut Bytes,
    states: &States,
    tokens: &[Token],
    cut: &Cut,
) -> Result<(), NoMemory>
    requires { CutFits (map length states.now.events) cut.now }
    ensures { OnOk result (out.new ≡ out.old ++ value_rows states.now tokens.now cut.now) }
{
    for process in 0..states.header().procs.len() as u32 {
        put_process_rows(out, states, tokens, cut, process)?;
    }
    put_channel_rows(out, states, tokens, cut)
}
