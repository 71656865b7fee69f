//! Ties: what happened before an event, and no arrow shows it.
ghost use Rattle.std.specs.Prelude.{◌≡◌, ℕ, ◌+◌, ◌<◌, ◌≤◌, ◌++◌, false, [], length, map, get_or};
ghost use Rattle.std.specs.Prelude.{OnOk, IfOk};
ghost use Rattle.std.specs.List.{AllByRecursion, filter, flat_map};
ghost use Rattle.pota_base.specs.Shape.{HasEvent};
ghost use Rattle.run_model.specs.Cut.{lengths};
ghost use Rattle.vector_clock.specs.Events.{clocks_of};
ghost use Rattle.view_parts.specs.Each.{places};
ghost use Rattle.view_picture.specs.Choice.{is_place};
ghost use Rattle.view_picture.specs.Shown.{is_shown, shown_events};
ghost use Rattle.view_picture.specs.Ties.{placed, send_of, shown_send, last_known, is_before};
ghost use Rattle.view_picture.specs.Ties.{is_between, is_some_place, is_tied, ties_to, ties_of};
ghost use Rattle.view_picture.specs.inside.Placing.{RowsFit};

use crate::choice::is_place;
use crate::columns::{Columns, known};
use causal_order::Order;
use event_log::Kind;
use pota_base::{EventId, List, NoMemory};
use slice_graph::Edge;
use std::alloc::Global;
use trace_growth::Trace;
use view_parts::event_at;

// An event of a process, where its position is known.
fn placed(process: u32, position: Option<u32>) -> Option<EventId>
    ensures { result ≡ placed process position }
{
    match position {
        None => None,
        Some(position) => Some(EventId { process, position }),
    }
}

// The event that sends what an event receives, if it receives something.
fn send_of(trace: &Trace, receipt: EventId) -> Option<EventId>
    requires here { trace.now.spent ≡ false }
    requires there { HasEvent (map length trace.now.states.events) receipt }
    ensures { result ≡ send_of trace.now.states receipt }
{
    match event_at(trace.states(), receipt).kind {
        Kind::Internal => None,
        Kind::Send { .. } => None,
        Kind::Receive { sender, id } => {
            placed(sender, trace.place_sent(sender, receipt.process, id))
        }
    }
}

/// The same where it is shown.
pub fn shown_send(trace: &Trace, columns: &Columns, receipt: EventId) -> Option<EventId>
    requires here { trace.now.spent ≡ false }
    requires there { HasEvent (map length trace.now.states.events) receipt }
    ensures { result ≡ shown_send trace.now.states columns.now receipt }
{
    match send_of(trace, receipt) {
        Some(send) if columns.is_shown(send) => Some(send),
        _ => None,
    }
}

/// The events that are shown, of all of them.
pub fn shown_events(
    alloc: Global,
    columns: &Columns,
    events: &[EventId],
) -> Result<List<EventId>, NoMemory>
    ensures { IfOk result (λ shown. shown ≡ filter (is_shown columns.now) events.now) }
{
    let mut shown = List::new(alloc);
    for event in events {
        if columns.is_shown(*event) {
            shown.push(*event)?;
        }
    }
    Ok(shown)
}

// The last shown event of a process that happened before an event, with position 0 where there is
// none.
fn last_known(order: &Order, columns: &Columns, event: EventId, process: u32) -> EventId
    requires fit { RowsFit order.now columns.now }
    requires there { HasEvent (lengths order.now) event }
    requires process { process < length order.now }
    ensures last { result ≡ last_known order.now columns.now event process }
    ensures there { 0 < result.position → HasEvent (lengths order.now) result }
{
    EventId {
        process,
        position: columns.last_shown(process, known(order, event, process)),
    }
}

// Whether the first event happened before the second one, if that is there.
fn is_before(order: &Order, first: EventId, second: EventId) -> bool
    requires { 0 < second.position → HasEvent (lengths order.now) second }
    ensures { result ≡ is_before order.now first second }
{
    second.position > 0 && first.position <= known(order, second, first.process)
}

// Whether another shown event stands between the two. Most often it is the one before the second.
fn is_between(order: &Order, columns: &Columns, first: EventId, second: EventId) -> bool
    requires fit { RowsFit order.now columns.now }
    requires there { HasEvent (lengths order.now) second }
    ensures { result ≡ is_between order.now columns.now first second }
{
    if is_before(
        order,
        first,
        last_known(order, columns, second, second.process),
    ) {
        return true;
    }
    for process in 0..order.shape().procs() {
        if is_before(order, first, last_known(order, columns, second, process)) {
            return true;
        }
    }
    false
}

fn is_some_place(event: EventId, other: Option<EventId>) -> bool
    ensures { result ≡ is_some_place event other }
{
    match other {
        None => false,
        Some(other) => is_place(event, other),
    }
}

// Whether the last shown event of a process that happened before an event has a tie to it.
fn is_tied(trace: &Trace, columns: &Columns, event: EventId, process: u32) -> bool
    requires here { trace.now.spent ≡ false }
    requires fit { RowsFit (clocks_of trace.now.states.events) columns.now }
    requires there { HasEvent (map length trace.now.states.events) event }
    requires process { process < length trace.now.states.events }
    ensures { result ≡ is_tied trace.now.states columns.now event process }
{
    let order = trace.order();
    let last = last_known(order, columns, event, process);
    process != event.process
        && last.position > 0
        && !is_some_place(last, shown_send(trace, columns, event))
        && !is_between(order, columns, last, event)
}

// Appends the ties to an event.
fn put_ties_to(
    ties: &mut List<Edge>,
    trace: &Trace,
    columns: &Columns,
    event: EventId,
) -> Result<(), NoMemory>
    requires here { trace.now.spent ≡ false }
    requires fit { RowsFit (clocks_of trace.now.states.events) columns.now }
    requires there { HasEvent (map length trace.now.states.events) event }
    ensures { OnOk result (ties.new ≡ ties.old ++ ties_to trace.now.states columns.now event) }
{
    for process in 0..trace.states().shape().procs() {
        if is_tied(trace, columns, event, process) {
            ties.push(Edge {
                cause: last_known(trace.order(), columns, event, process),
                effect: event,
            })?;
        }
    }
    Ok(())
}

/// The ties to all events that are shown.
pub fn ties_of(
    alloc: Global,
    trace: &Trace,
    columns: &Columns,
    shown: &[EventId],
) -> Result<List<Edge>, NoMemory>
    requires here { trace.now.spent ≡ false }
    requires fit { RowsFit (clocks_of trace.now.states.events) columns.now }
    requires there { AllByRecursion (HasEvent (map length trace.now.states.events)) shown.now }
    ensures { IfOk result (λ ties. ties
        ≡ flat_map (ties_to trace.now.states columns.now) shown.now) }
{
    let mut ties = List::new(alloc);
    for k in 0..shown.len() {
        put_ties_to(&mut ties, trace, columns, shown[k])?;
    }
    Ok(ties)
}
