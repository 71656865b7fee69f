//! The events of a batch as the nodes of a graph, and what those without a clock look back on.
ghost use Rattle.std.specs.Prelude.{◌≡◌, ◌+◌, ◌<◌, ◌≤◌, List as ListOf, length, map, sum, IfOk};
ghost use Rattle.std.specs.Prelude.{OnOk};
ghost use Rattle.std.specs.List.{AllByRecursion};
ghost use Rattle.std.specs.Option.{option_map};
ghost use Rattle.vector_clock.specs.declared.nodes.Target.TheVariants.{InBatch};
ghost use Rattle.pota_base.specs.Shape.{IsShape};
ghost use Rattle.pota_base.specs.Limits.{most_events, most_processes};
ghost use Rattle.greatest_reach.specs.Graph.{IsGraph};
ghost use Rattle.vector_clock.specs.Events.{Events, EventStands};
ghost use Rattle.vector_clock.specs.inside.Events.{raised};
ghost use Rattle.vector_clock.specs.Messages.{message_received, first_send, sends};
ghost use Rattle.vector_clock.specs.Met.{met_at};
ghost use Rattle.vector_clock.specs.Admitted.{HasMessages};
ghost use Rattle.vector_clock.specs.inside.Nodes.{IsTarget, IsBeforeInBatch, AreWithin, AreSends};
ghost use Rattle.vector_clock.specs.inside.Nodes.{admitted_at, send_of as first_send_of, AreLasts};
ghost use Rattle.vector_clock.specs.inside.Nodes.{AreNodes, HaveTargets, AreReaders, with_reader};

use crate::message::Message;
use crate::messages::Messages;
use crate::places::{Met, Places};
use event_log::{Event, Kind};
use pota_base::{EventId, List, NoMemory};
use std::alloc::Global;

/// An event that another looks back on.
#[derive(Clone, Copy, Debug)]
pub enum Target {
    Admitted(EventId),
    /// The place in the batch, counted from 0.
    InBatch(u32),
}

/// An event of a batch: its place on its process, counted from 1, the event before it there, and
/// the first send of what it receives.
#[derive(Clone, Copy, Debug)]
pub struct Node {
    pub position: u32,
    pub before: Option<Target>,
    pub sent: Option<Target>,
}

/// Where the batch sends each message first.
pub fn sends_in(alloc: Global, batch: &[Event]) -> Result<Places, NoMemory>
    requires { length batch.now ≤ most_events }
    ensures { IfOk result (λ places. AreSends places batch.now) }
{
    let mut places = Places::new(alloc);
    for i in 0..batch.len() {
        let event = &batch[i];
        if let Kind::Send { to, id } = event.kind {
            places.note(Message::new(event.process, to, id), Met::sent_at(i as u32))?;
        }
    }
    Ok(places)
}

// The event of a process, if it was admitted.
fn admitted(lens: &[u32], process: u32, position: u32) -> Option<Target>
    requires { process < length lens.now }
    ensures target { result ≡ admitted_at lens.now process position }
    ensures there { IsTarget lens.now 0 result }
{
    if position > 0 && position <= lens[process as usize] {
        Some(Target::Admitted(EventId { process, position }))
    } else {
        None
    }
}

// The event of the batch at a place, if there is one.
fn in_batch(place: Option<u32>) -> Option<Target>
    ensures { result ≡ option_map (λ k. InBatch k) place }
{
    place.map(Target::InBatch)
}

// The first send of what the event receives.
fn send_of(lens: &[u32], messages: &Messages, sends: &Places, event: &Event) -> Option<Target>
    requires { EventStands (length lens.now) event.now }
    ensures send { (events : Events) (batch : ListOf Event) → HasMessages messages.now events
        → AreSends sends.now batch → result ≡ first_send_of lens.now events batch event.now }
    ensures there { (batch : ListOf Event) → AreSends sends.now batch
        → IsTarget lens.now (length batch) result }
{
    let Kind::Receive { sender, id } = event.kind else {
        return None;
    };
    let message = Message::new(sender, event.process, id);
    match messages.place_sent(&message) {
        Some(position) => admitted(lens, sender, position),
        None => in_batch(sends.met(&message).sent),
    }
}

// The last event of each process, of those that were admitted.
fn lasts_of(alloc: Global, lens: &[u32]) -> Result<Vec<Option<Target>>, NoMemory>
    requires { length lens.now ≤ most_processes }
    ensures { IfOk result (λ lasts. AreLasts lens.now lasts.items) }
{
    let mut lasts = Vec::with_capacity(alloc, lens.len())?;
    for process in 0..lens.len() {
        lasts.push(admitted(lens, process as u32, lens[process]))?;
    }
    Ok(lasts)
}

/// The events of a batch behind those that were admitted, which are so many of each process.
pub fn nodes_in(
    alloc: Global,
    lens: &[u32],
    messages: &Messages,
    sends: &Places,
    batch: &[Event],
) -> Result<Vec<Node>, NoMemory>
    requires shape { IsShape lens.now }
    requires each { AllByRecursion (EventStands (length lens.now)) batch.now }
    requires few { sum lens.now + length batch.now ≤ most_events }
    requires sends { AreSends sends.now batch.now }
    ensures nodes { IfOk result (λ nodes. (events : Events) → lens.now ≡ map length events
        → HasMessages messages.now events
        → AreNodes events batch.now (length batch.now) nodes.items) }
    ensures targets { IfOk result (λ nodes. HaveTargets lens.now (length batch.now) nodes.items) }
    ensures count { IfOk result (λ nodes. length nodes.items ≡ length batch.now) }
{
    let mut taken = Vec::from_slice(alloc, lens)?;
    let mut lasts = lasts_of(alloc, lens)?;
    let mut nodes = Vec::with_capacity(alloc, batch.len())?;
    for i in 0..batch.len() {
        let event = &batch[i];
        let position = taken[event.process as usize] + 1;
        nodes.push(Node {
            position,
            before: lasts[event.process as usize],
            sent: send_of(lens, messages, sends, event),
        })?;
        taken[event.process as usize] = position;
        lasts[event.process as usize] = Some(Target::InBatch(i as u32));
    }
    Ok(nodes)
}

// Puts a node behind the readers of its target, if that is in the batch.
fn add_reader(
    readers: &mut Vec<List<u32>>,
    node: u32,
    target: Option<Target>,
) -> Result<(), NoMemory>
    requires { IsBeforeInBatch (length readers.old.items) target }
    ensures { OnOk result (readers.new.items ≡ with_reader readers.old.items node target) }
{
    if let Some(Target::InBatch(read)) = target {
        readers[read as usize].push(node)?;
    }
    Ok(())
}

/// Of each node those that look back on it.
pub fn readers_of(
    alloc: Global,
    batch: &[Event],
    nodes: &[Node],
) -> Result<Vec<List<u32>>, NoMemory>
    requires few { length batch.now ≤ most_events }
    requires count { length nodes.now ≡ length batch.now }
    requires targets { AreWithin (length batch.now) nodes.now }
    ensures readers { IfOk result (λ readers. AreReaders batch.now nodes.now
        (length batch.now) readers.items) }
    ensures graph { IfOk result (λ readers. IsGraph readers.items) }
{
    let mut readers = Vec::with_capacity(alloc, batch.len())?;
    for _event in batch {
        readers.push(List::new(alloc))?;
    }
    for i in 0..batch.len() {
        if batch[i].clock.is_empty() {
            add_reader(&mut readers, i as u32, nodes[i].before)?;
            add_reader(&mut readers, i as u32, nodes[i].sent)?;
        }
    }
    Ok(readers)
}
