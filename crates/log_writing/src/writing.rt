//! The text of a log.

ghost use Rattle.std.specs.Prelude.{◌≡◌, ◌++◌, ◌∷◌, ◌<◌, [], length, IfOk, OnOk};
ghost use Rattle.std.specs.List.{AllByRecursion};
ghost use Rattle.std.specs.Fmt.{decimal};
ghost use Rattle.log_lines.specs.Spelling.{values_text, event_clock_text, action_text};
ghost use Rattle.event_log.specs.Before.{heading_of, IsVersion};
ghost use Rattle.event_log.specs.Numbers.{variables_at};
ghost use Rattle.event_log.specs.LogText.{values_of, named_values, action_of, vars_lines};
ghost use Rattle.event_log.specs.LogText.{event_lines, batch_lines, closing_line};
ghost use Rattle.event_log.specs.LogText.{text_of, log_text, AssignFits, KindWithin};
ghost use Rattle.event_log.specs.Laws.{IsLog};
ghost use Rattle.log_writing.specs.Spelling.{CanBeSpelled, BatchesCanBeSpelled, HasText};

use event_log::{
    Assign, Binding, Event, Header, Kind, Log, Name, put_clock, put_names, put_spaced,
};
use pota_base::{Bytes, List, NoMemory, put_i64, put_u64};
use std::alloc::Global;

// ` NAME=INT`
fn put_value(out: &mut Bytes, name: &[u8], value: i64) -> Result<(), NoMemory>
    ensures { OnOk result (out.new
        ≡ out.old ++ values_text (record { name = name.now; value = value } ∷ [])) }
{
    put_spaced(out, name)?;
    out.push(b'=')?;
    put_i64(out, value)
}

fn put_binding(out: &mut Bytes, binding: &Binding) -> Result<(), NoMemory>
    ensures { OnOk result (out.new ≡ out.old ++ values_text (values_of (binding.now ∷ []))) }
{
    put_value(out, binding.name.as_bytes(), binding.value)
}

fn put_bindings(out: &mut Bytes, bindings: &[Binding]) -> Result<(), NoMemory>
    ensures { OnOk result (out.new ≡ out.old ++ values_text (values_of bindings.now)) }
{
    for binding in bindings {
        put_binding(out, binding)?;
    }
    Ok(())
}

fn put_assign(out: &mut Bytes, variables: &[Binding], assign: Assign) -> Result<(), NoMemory>
    requires { assign.variable < length variables.now }
    ensures { OnOk result (out.new
        ≡ out.old ++ values_text (named_values variables.now (assign ∷ []))) }
{
    put_value(
        out,
        variables[assign.variable as usize].name.as_bytes(),
        assign.value,
    )
}

fn put_assigns(out: &mut Bytes, variables: &[Binding], assigns: &[Assign]) -> Result<(), NoMemory>
    requires { AllByRecursion (AssignFits variables.now) assigns.now }
    ensures { OnOk result (out.new
        ≡ out.old ++ values_text (named_values variables.now assigns.now)) }
{
    for assign in assigns {
        put_assign(out, variables, *assign)?;
    }
    Ok(())
}

// The clock of an event, which is written `~` where it is left out.
#[tactic(auto, using(log_lines::proofs::ItemLaws::written_text))]
fn put_event_clock(out: &mut Bytes, clock: &[u32]) -> Result<(), NoMemory>
    ensures { OnOk result (out.new ≡ out.old ++ event_clock_text clock.now) }
{
    match clock {
        [] => out.push(b'~'),
        [_, ..] => put_clock(out, clock),
    }
}

fn put_message(out: &mut Bytes, word: &[u8], peer: &[u8], id: u64) -> Result<(), NoMemory>
    ensures { OnOk result (out.new ≡ out.old ++ (word.now ++ 32 ∷ (peer.now ++ 32 ∷ decimal id))) }
{
    out.extend_from_slice(word)?;
    put_spaced(out, peer)?;
    out.push(b' ')?;
    put_u64(out, id)
}

fn put_kind(out: &mut Bytes, procs: &[Name], kind: Kind) -> Result<(), NoMemory>
    requires { KindWithin (length procs.now) kind }
    ensures { OnOk result (out.new ≡ out.old ++ action_text (action_of procs.now kind)) }
{
    match kind {
        Kind::Internal => out.extend_from_slice(b"int"),
        Kind::Send { to, id } => put_message(out, b"send", procs[to as usize].as_bytes(), id),
        Kind::Receive { sender, id } => put_message(
            out,
            b"recv",
            procs[sender as usize].as_bytes(),
            id,
        ),
    }
}

// The variables of a process.
fn variables_at(variables: &[List<Binding>], process: u32) -> &[Binding]
    ensures { result.now ≡ variables_at variables.now process }
{
    match variables.get(process as usize) {
        Some(bindings) => bindings.as_slice(),
        None => &[],
    }
}

fn put_event(out: &mut Bytes, header: &Header, event: &Event) -> Result<(), NoMemory>
    requires { CanBeSpelled header.now event.now }
    ensures { OnOk result (out.new ≡ out.old ++ text_of (event_lines header.now (event.now ∷ []))) }
{
    let procs = header.procs.as_slice();
    out.extend_from_slice(b"ev")?;
    put_spaced(out, procs[event.process as usize].as_bytes())?;
    out.push(b' ')?;
    put_event_clock(out, event.clock.as_slice())?;
    out.push(b' ')?;
    put_kind(out, procs, event.kind)?;
    let variables = variables_at(header.vars.as_slice(), event.process);
    put_assigns(out, variables, event.assigns.as_slice())?;
    out.push(b'\n')
}

fn put_events(out: &mut Bytes, header: &Header, events: &[Event]) -> Result<(), NoMemory>
    requires { AllByRecursion (CanBeSpelled header.now) events.now }
    ensures { OnOk result (out.new ≡ out.old ++ text_of (event_lines header.now events.now)) }
{
    for event in events {
        put_event(out, header, event)?;
    }
    Ok(())
}

// The line behind a batch, by the batches that follow.
fn closing_line(rest: &[List<Event>]) -> &'static [u8]
    ensures { result.now ≡ closing_line rest.now }
{
    match rest {
        [] => b"end",
        [_, ..] => b"batch",
    }
}

fn put_batches(out: &mut Bytes, header: &Header, batches: &[List<Event>]) -> Result<(), NoMemory>
    requires { BatchesCanBeSpelled header.now batches.now }
    ensures { OnOk result (out.new ≡ out.old ++ text_of (batch_lines header.now batches.now)) }
{
    'batches: for i in 0..batches.len() {
        put_events(out, header, batches[i].as_slice())?;
        out.extend_from_slice(closing_line(&batches[i + 1..]))?;
        out.push(b'\n')?;
    }
    Ok(())
}

// The `vars` line of a process, where it has variables.
fn put_vars(out: &mut Bytes, process: &Name, bindings: &[Binding]) -> Result<(), NoMemory>
    ensures { OnOk result (out.new
        ≡ out.old ++ text_of (vars_lines (process.now ∷ []) (bindings.now ∷ []))) }
{
    if bindings.is_empty() {
        return Ok(());
    }
    out.extend_from_slice(b"vars")?;
    put_spaced(out, process.as_bytes())?;
    put_bindings(out, bindings)?;
    out.push(b'\n')
}

fn put_all_vars(out: &mut Bytes, procs: &[Name], vars: &[List<Binding>]) -> Result<(), NoMemory>
    requires { length vars.now ≡ length procs.now }
    ensures { OnOk result (out.new ≡ out.old ++ text_of (vars_lines procs.now vars.now)) }
{
    'processes: for i in 0..procs.len() {
        put_vars(out, &procs[i], vars[i].as_slice())?;
    }
    Ok(())
}

// The first line of a version.
fn heading_of(version: u32) -> &'static [u8]
    requires { IsVersion version }
    ensures { result.now ≡ heading_of version }
{
    if version == 1 {
        b"pota-log 1"
    } else {
        b"pota-log 2"
    }
}

/// The text of a log.
pub fn text_of(alloc: Global, log: &Log) -> Result<Bytes, NoMemory>
    requires { HasText log.now }
    ensures { IfOk result (λ text. text ≡ log_text log.now) }
{
    let mut out = List::new(alloc);
    out.extend_from_slice(heading_of(log.header.version))?;
    out.extend_from_slice(b"\nprocs")?;
    put_names(&mut out, log.header.procs.as_slice())?;
    out.push(b'\n')?;
    put_all_vars(
        &mut out,
        log.header.procs.as_slice(),
        log.header.vars.as_slice(),
    )?;
    put_batches(&mut out, &log.header, log.batches.as_slice())?;
    Ok(out)
}

/// The text of a log that reading gives.
pub fn write_log(alloc: Global, log: &Log) -> Result<Bytes, NoMemory>
    requires { IsLog log.now }
    ensures { IfOk result (λ text. text ≡ log_text log.now) }
{
    text_of(alloc, log)
}
