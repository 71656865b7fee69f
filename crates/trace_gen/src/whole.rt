//! A whole log.
ghost use Rattle.std.specs.Prelude.{◌≡◌, ◌≤◌, ◌<◌, ◌+◌, IfOk, None, List as ListOf, [], length};
ghost use Rattle.std.specs.Prelude.{replicate};
ghost use Rattle.pota_base.specs.Limits.{most_events, most_processes};
ghost use Rattle.event_log.specs.Laws.{IsLog};
ghost use Rattle.event_log.specs.LogText.{HasVarLines};
ghost use Rattle.vector_clock.specs.Faults.{log_fault};
ghost use Rattle.vector_clock.specs.Filled.{filled_log};
ghost use Rattle.trace_gen.specs.Generated.{at_rest, generated, generated_events, header_of};
ghost use Rattle.trace_gen.specs.Generated.{name_of, names_from, opening};

use crate::making::make;
use crate::process::Process;
use crate::words::Words;
use event_log::{Binding, Event, Header, Log, Name, var_lines_of};
use pota_base::{List, NoMemory, put_u64};
use std::alloc::Global;

// `P1` and so on, by the index from 0.
fn process_name(alloc: Global, index: usize) -> Result<Name, NoMemory>
    requires { index < most_processes }
    ensures { IfOk result (λ name. name ≡ name_of index) }
{
    let mut text = List::new(alloc);
    text.push(b'P')?;
    put_u64(&mut text, index as u64 + 1)?;
    let name = Name::new(alloc, text.as_slice())?;
    Ok(name.unwrap())
}

fn names(alloc: Global, procs: usize) -> Result<List<Name>, NoMemory>
    requires { procs ≤ most_processes }
    ensures { IfOk result (λ names. names ≡ names_from 0 procs) }
{
    let mut names = List::new(alloc);
    for index in 0..procs {
        names.push(process_name(alloc, index)?)?;
    }
    Ok(names)
}

// `n=0 seen=0`.
fn variables(alloc: Global) -> Result<List<Binding>, NoMemory>
    ensures { IfOk result (λ bindings. bindings ≡ opening) }
{
    let mut bindings = List::new(alloc);
    bindings.push(Binding {
        name: Name::new(alloc, b"n")?.unwrap(),
        value: 0,
    })?;
    bindings.push(Binding {
        name: Name::new(alloc, b"seen")?.unwrap(),
        value: 0,
    })?;
    Ok(bindings)
}

#[tactic(auto, using(crate::proofs::Naming::replicate_more))]
fn all_variables(alloc: Global, procs: usize) -> Result<List<List<Binding>>, NoMemory>
    ensures { IfOk result (λ vars. vars ≡ replicate procs opening) }
{
    let mut vars = List::new(alloc);
    for _process in 0..procs {
        vars.push(variables(alloc)?)?;
    }
    Ok(vars)
}

fn header(alloc: Global, procs: usize) -> Result<Header, NoMemory>
    requires { procs ≤ most_processes }
    ensures { IfOk result (λ header. header ≡ header_of procs) }
{
    let vars = all_variables(alloc, procs)?;
    Ok(Header {
        version: 1,
        procs: names(alloc, procs)?,
        var_lines: var_lines_of(alloc, vars.as_slice())?,
        vars,
    })
}

#[tactic(auto, using(crate::proofs::Naming::replicate_more))]
fn processes_at_rest(alloc: Global, procs: usize) -> Result<Vec<Process>, NoMemory>
    ensures { IfOk result (λ processes. processes.items ≡ at_rest procs) }
{
    let mut processes = Vec::new(alloc);
    for _process in 0..procs {
        processes.push(Process::at_rest(alloc, procs)?)?;
    }
    Ok(processes)
}

fn make_events(alloc: Global, seed: u64, procs: u32, count: u32) -> Result<List<Event>, NoMemory>
    requires some { 1 ≤ procs }
    requires few { procs ≤ most_processes }
    requires limit { count ≤ most_events }
    ensures { IfOk result (λ events. events ≡ generated_events seed procs count) }
{
    let mut words = Words::new(seed);
    let mut owned = processes_at_rest(alloc, procs as usize)?;
    let processes = owned.as_mut_slice();
    let mut events = List::new(alloc);
    for number in 0..count {
        let word = words.draw();
        events.push(make(alloc, processes, number, word)?)?;
    }
    Ok(events)
}

fn make_log(alloc: Global, seed: u64, procs: u32, events: u32) -> Result<Log, NoMemory>
    requires some { 1 ≤ procs }
    requires few { procs ≤ most_processes }
    requires limit { events ≤ most_events }
    ensures { IfOk result (λ log. log ≡ generated seed procs events) }
{
    let mut batches = List::new(alloc);
    batches.push(make_events(alloc, seed, procs, events)?)?;
    Ok(Log {
        header: header(alloc, procs as usize)?,
        batches,
    })
}

/// The log of one batch that the seed gives, with so many processes and events.
pub fn generate(alloc: Global, seed: u64, procs: u32, events: u32) -> Result<Log, NoMemory>
    requires some { 1 ≤ procs }
    requires few { procs ≤ most_processes }
    requires limit { events ≤ most_events }
    ensures log { IfOk result (λ log. log ≡ generated seed procs events) }
    ensures text { IfOk result IsLog }
    ensures lines { IfOk result (λ log. HasVarLines log.header) }
    ensures clean { IfOk result (λ log. log_fault (filled_log log) ≡ None) }
{
    make_log(alloc, seed, procs, events)
}
