//! The counts of the clocks that a batch leaves out, one process after the other.
ghost use Rattle.std.specs.Prelude.{◌≡◌, ◌+◌, ◌<◌, ◌≤◌, ◌++◌, length, IfOk, OnOk};
ghost use Rattle.std.specs.List.{AllByRecursion};
ghost use Rattle.run_model.specs.Cut.{lengths};
ghost use Rattle.pota_base.specs.Limits.{most_events};
ghost use Rattle.greatest_reach.specs.Graph.{IsGraph};
ghost use Rattle.vector_clock.specs.Events.{EventStands};
ghost use Rattle.vector_clock.specs.inside.Nodes.{IsTarget, HaveTargets, AreReaders, AreStarts};
ghost use Rattle.vector_clock.specs.inside.Nodes.{AreCounts};
ghost use Rattle.vector_clock.specs.inside.Nodes.{HaveCounts, HaveMore, AreFilled, admitted_start};
ghost use Rattle.vector_clock.specs.inside.Nodes.{starts_of};

use crate::nodes::{Node, Target};
use causal_order::Order;
use event_log::Event;
use greatest_reach::{Start, greatest};
use pota_base::{List, NoMemory};
use std::alloc::Global;

// The count of a process at an admitted event starts at the node that looks back on it.
fn add_admitted(
    starts: &mut Vec<Start>,
    order: &Order,
    process: u32,
    node: u32,
    target: Option<Target>,
) -> Result<(), NoMemory>
    requires process { process < length order.now }
    requires target { IsTarget (lengths order.now) most_events target }
    ensures { OnOk result (starts.new.items
        ≡ starts.old.items ++ admitted_start order.now process node target) }
{
    if let Some(Target::Admitted(event)) = target {
        let value = order.clock(event)[process as usize];
        starts.push(Start { value, node })?;
    }
    Ok(())
}

// The numbers of a process that start at one event.
fn add_starts(
    starts: &mut Vec<Start>,
    order: &Order,
    process: u32,
    place: u32,
    event: &Event,
    node: Node,
) -> Result<(), NoMemory>
    requires process { process < length order.now }
    requires event { EventStands (length order.now) event.now }
    requires before { IsTarget (lengths order.now) most_events node.before }
    requires sent { IsTarget (lengths order.now) most_events node.sent }
    ensures { OnOk result (starts.new.items
        ≡ starts.old.items ++ starts_of order.now process place event.now node) }
{
    if !event.clock.is_empty() {
        let value = event.clock.as_slice()[process as usize];
        starts.push(Start { value, node: place })?;
        return Ok(());
    }
    if event.process == process {
        starts.push(Start {
            value: node.position,
            node: place,
        })?;
    }
    add_admitted(starts, order, process, place, node.before)?;
    add_admitted(starts, order, process, place, node.sent)
}

// The numbers of a process that start at the events of a batch.
fn starts_in(
    alloc: Global,
    order: &Order,
    process: u32,
    batch: &[Event],
    nodes: &[Node],
) -> Result<Vec<Start>, NoMemory>
    requires process { process < length order.now }
    requires each { AllByRecursion (EventStands (length order.now)) batch.now }
    requires few { length batch.now ≤ most_events }
    requires count { length nodes.now ≡ length batch.now }
    requires targets { HaveTargets (lengths order.now) (length batch.now) nodes.now }
    ensures { IfOk result (λ starts. AreStarts order.now process batch.now nodes.now
        (length batch.now) starts.items) }
{
    let mut starts = Vec::with_capacity(alloc, batch.len())?;
    for i in 0..batch.len() {
        add_starts(&mut starts, order, process, i as u32, &batch[i], nodes[i])?;
    }
    Ok(starts)
}

// The count of a process in the clock of each event of a batch.
fn counts_of(
    alloc: Global,
    order: &Order,
    process: u32,
    batch: &[Event],
    nodes: &[Node],
    readers: &[List<u32>],
) -> Result<Vec<u32>, NoMemory>
    requires process { process < length order.now }
    requires each { AllByRecursion (EventStands (length order.now)) batch.now }
    requires few { length batch.now ≤ most_events }
    requires count { length nodes.now ≡ length batch.now }
    requires targets { HaveTargets (lengths order.now) (length batch.now) nodes.now }
    requires readers { AreReaders batch.now nodes.now (length batch.now) readers.now }
    ensures { IfOk result
        (λ values. AreCounts order.now batch.now nodes.now readers.now process values.items) }
{
    let starts = starts_in(alloc, order, process, batch, nodes)?;
    greatest(alloc, readers, starts)
}

// Puts a count behind those that each clock has.
fn add_counts(clocks: &mut Vec<List<u32>>, values: &[u32]) -> Result<(), NoMemory>
    requires { length values.now ≡ length clocks.old.items }
    ensures { OnOk result (HaveMore clocks.old.items clocks.new.items values.now) }
{
    for i in 0..values.len() {
        clocks[i].push(values[i])?;
    }
    Ok(())
}

/// The clocks of the events of a batch.
pub fn clocks_of(
    alloc: Global,
    order: &Order,
    batch: &[Event],
    nodes: &[Node],
    readers: &[List<u32>],
) -> Result<Vec<List<u32>>, NoMemory>
    requires each { AllByRecursion (EventStands (length order.now)) batch.now }
    requires few { length batch.now ≤ most_events }
    requires count { length nodes.now ≡ length batch.now }
    requires targets { HaveTargets (lengths order.now) (length batch.now) nodes.now }
    requires readers { AreReaders batch.now nodes.now (length batch.now) readers.now }
    ensures { IfOk result (λ clocks. HaveCounts order.now batch.now nodes.now readers.now
        (length order.now) clocks.items) }
{
    let procs = order.shape().procs();
    let mut clocks = Vec::with_capacity(alloc, batch.len())?;
    for _event in batch {
        clocks.push(List::with_capacity(alloc, procs as usize)?)?;
    }
    for process in 0..procs {
        let values = counts_of(alloc, order, process, batch, nodes, readers)?;
        add_counts(&mut clocks, &values)?;
    }
    Ok(clocks)
}

fn copy_of<T: Copy>(alloc: Global, items: &[T]) -> Result<List<T>, NoMemory>
    ensures { IfOk result (λ list. list ≡ items.now) }
{
    let mut list = List::with_capacity(alloc, items.len())?;
    list.extend_from_slice(items)?;
    Ok(list)
}

// The event with this clock.
fn copy_with(alloc: Global, event: &Event, clock: &[u32]) -> Result<Event, NoMemory>
    ensures { IfOk result (λ copy. copy ≡ record event.now { clock = clock.now }) }
{
    Ok(Event {
        process: event.process,
        line: event.line,
        clock: copy_of(alloc, clock)?,
        kind: event.kind,
        assigns: copy_of(alloc, event.assigns.as_slice())?,
    })
}

/// The events of a batch, each with its clock of these where it leaves its own out.
pub fn copy_filled(
    alloc: Global,
    batch: &[Event],
    clocks: &[List<u32>],
) -> Result<List<Event>, NoMemory>
    requires { length clocks.now ≡ length batch.now }
    ensures { IfOk result (λ filled. AreFilled batch.now clocks.now filled) }
{
    let mut filled = List::with_capacity(alloc, batch.len())?;
    for i in 0..batch.len() {
        let event = &batch[i];
        let clock = if event.clock.is_empty() {
            clocks[i].as_slice()
        } else {
            event.clock.as_slice()
        };
        filled.push(copy_with(alloc, event, clock)?)?;
    }
    Ok(filled)
}
