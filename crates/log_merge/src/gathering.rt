//! The variables and the events of the sources, in the order of the processes.

ghost use Rattle.std.specs.Prelude.{◌≡◌, ◌+◌, ◌≤◌, ◌<◌, ◌∷◌, [], length, IfOk, OnOk, None, Some};
ghost use Rattle.std.specs.Prelude.{slice_get};
ghost use Rattle.pota_base.specs.Limits.{most_events, most_processes};
ghost use Rattle.event_log.specs.declared.log.Event.{Event};
ghost use Rattle.event_log.specs.Numbers.{variables_at};
ghost use Rattle.log_merge.specs.Sources.{events_of, events_in};
ghost use Rattle.log_merge.specs.Merging.{placed_events, placed_in, placed_from, of_process};
ghost use Rattle.log_merge.specs.Merging.{by_process, numbered, origins, variables_in};
ghost use Rattle.log_merge.specs.Merging.{all_variables};
ghost use Rattle.log_merge.specs.Owners.{AreOwners, IsOwner};

use crate::merged::Origin;
use event_log::{Binding, Event, Header, Log, copy_of};
use pota_base::{List, MOST_PROCESSES, NoMemory};
use std::alloc::Global;

/// Events with their numbers as lines, and where each comes from.
#[derive(Debug, Drop)]
pub struct Gathered {
    pub events: List<Event>,
    pub origins: List<Origin>,
}

// A copy of the event, on another line.
fn event_at(alloc: Global, event: &Event, line: u32) -> Result<Event, NoMemory>
    ensures { IfOk result (λ e. e ≡ record event.now { line = line }) }
{
    let mut clock = List::with_capacity(alloc, event.clock.len())?;
    clock.extend_from_slice(event.clock.as_slice())?;
    let mut assigns = List::with_capacity(alloc, event.assigns.len())?;
    assigns.extend_from_slice(event.assigns.as_slice())?;
    Ok(Event {
        process: event.process,
        line,
        clock,
        kind: event.kind,
        assigns,
    })
}

impl Gathered {
    ghost use Rattle.log_merge.specs.inside.Owners.{Gathers};

    // One event more.
    fn add(&mut self, alloc: Global, source: u32, event: &Event) -> Result<(), NoMemory>
        requires { length self.old.events < most_events }
        ensures { OnOk result (Gathers self.old self.new
            (record { source = source; event = event.now } ∷ [])) }
    {
        let number = self.events.len() as u32 + 1;
        let copy = event_at(alloc, event, number)?;
        self.events.push(copy)?;
        self.origins.push(Origin {
            source,
            line: event.line,
        })?;
        Ok(())
    }

    // These events of a source.
    fn add_batch(&mut self, alloc: Global, number: u32, batch: &[Event]) -> Result<(), NoMemory>
        requires { length self.old.events + length batch.now ≤ most_events }
        ensures { OnOk result (Gathers self.old self.new (placed_events number batch.now)) }
    {
        for event in batch {
            self.add(alloc, number, event)?;
        }
        Ok(())
    }

    // All events of a source.
    fn add_all(&mut self, alloc: Global, number: u32, source: &Log) -> Result<(), NoMemory>
        requires { length self.old.events + length (events_of source.now) ≤ most_events }
        ensures { OnOk result (Gathers self.old self.new (placed_in number source.now)) }
    {
        for batch in source.batches.as_slice() {
            self.add_batch(alloc, number, batch.as_slice())?;
        }
        Ok(())
    }

    // The events of one process.
    fn add_process(
        &mut self,
        alloc: Global,
        sources: &[Log],
        process: usize,
        owner: Option<u32>,
    ) -> Result<(), NoMemory>
        requires owner { IsOwner sources.now process owner }
        requires few { length self.old.events
            + length (of_process process (placed_from 1 sources.now)) ≤ most_events }
        ensures { OnOk result (Gathers self.old self.new
            (of_process process (placed_from 1 sources.now))) }
    {
        if let Some(number) = owner {
            self.add_all(alloc, number, &sources[number as usize - 1])?;
        }
        Ok(())
    }

    /// The events of so many processes, in the order of the processes.
    pub fn of(
        alloc: Global,
        sources: &[Log],
        owners: &[Option<u32>; MOST_PROCESSES],
        procs: usize,
    ) -> Result<Gathered, NoMemory>
        requires owners { AreOwners sources.now owners.now }
        requires procs { procs ≤ most_processes }
        requires few { events_in sources.now ≤ most_events }
        ensures { IfOk result (λ g. g ≡ record {
          events = numbered 1 (by_process 0 procs (placed_from 1 sources.now));
          origins = origins (by_process 0 procs (placed_from 1 sources.now));
        }) }
    {
        let mut gathered = Gathered {
            events: List::new(alloc),
            origins: List::new(alloc),
        };
        for process in 0..procs {
            gathered.add_process(alloc, sources, process, owners[process])?;
        }
        Ok(gathered)
    }
}

// The variables that a header has of a process.
fn own_variables(alloc: Global, header: &Header, process: usize) -> Result<List<Binding>, NoMemory>
    ensures { IfOk result (λ vars. vars ≡ variables_at header.now.vars process) }
{
    if process < header.vars.len() {
        copy_of(alloc, header.vars.get(process).as_slice())
    } else {
        Ok(List::new(alloc))
    }
}

// The variables that all sources have of a process.
fn variables_of(
    alloc: Global,
    sources: &[Log],
    process: usize,
    owner: Option<u32>,
) -> Result<List<Binding>, NoMemory>
    requires { IsOwner sources.now process owner }
    ensures { IfOk result (λ vars. vars ≡ variables_in process sources.now) }
{
    match owner {
        None => Ok(List::new(alloc)),
        Some(number) => own_variables(alloc, &sources[number as usize - 1].header, process),
    }
}

/// The variables of so many processes, a list for each.
pub fn variables(
    alloc: Global,
    sources: &[Log],
    owners: &[Option<u32>; MOST_PROCESSES],
    procs: usize,
) -> Result<List<List<Binding>>, NoMemory>
    requires owners { AreOwners sources.now owners.now }
    requires procs { procs ≤ most_processes }
    ensures { IfOk result (λ vars. vars ≡ all_variables 0 procs sources.now) }
{
    let mut vars = List::new(alloc);
    for process in 0..procs {
        vars.push(variables_of(alloc, sources, process, owners[process])?)?;
    }
    Ok(vars)
}
