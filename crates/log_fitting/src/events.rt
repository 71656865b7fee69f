//! Whether events and whole logs may be checked.
ghost use Rattle.std.specs.Prelude.{◌≤◌, IsTrue};
ghost use Rattle.std.specs.List.{AllByRecursion};
ghost use Rattle.pota_base.specs.Limits.{most_events};
ghost use Rattle.event_log.specs.LogText.{KindWithin, event_count};
ghost use Rattle.vector_clock.specs.Events.{EventStands, AllStand, CanBeChecked};

use event_log::{Event, Kind, Log};
use pota_base::{List, MOST_EVENTS};

// Whether the peer of a message is there.
fn is_within(procs: usize, kind: Kind) -> bool
    ensures { IsTrue result → KindWithin procs kind }
{
    match kind {
        Kind::Internal => true,
        Kind::Send { to, .. } => (to as usize) < procs,
        Kind::Receive { sender, .. } => (sender as usize) < procs,
    }
}

// Whether the event has its place among so many processes, its clock left out or not.
fn event_stands(procs: usize, event: &Event) -> bool
    ensures { IsTrue result → EventStands procs event.now }
{
    if event.process as usize >= procs {
        return false;
    }
    if !event.clock.is_empty() && event.clock.len() != procs {
        return false;
    }
    is_within(procs, event.kind)
}

/// Whether each event has its place among so many processes, its clock left out or not.
pub fn events_stand(procs: usize, events: &[Event]) -> bool
    ensures { IsTrue result → AllByRecursion (EventStands procs) events.now }
{
    for event in events {
        if !event_stands(procs, event) {
            return false;
        }
    }
    true
}

fn batches_stand(procs: usize, batches: &[List<Event>]) -> bool
    ensures { IsTrue result → AllStand procs batches.now }
{
    for batch in batches {
        if !events_stand(procs, batch.as_slice()) {
            return false;
        }
    }
    true
}

// Whether there are no more events than a log may have.
fn are_few(batches: &[List<Event>]) -> bool
    ensures { IsTrue result → event_count batches.now ≤ most_events }
{
    let mut left = MOST_EVENTS;
    for batch in batches {
        if batch.len() > left {
            return false;
        }
        left -= batch.len();
    }
    true
}

/// Whether the log may be checked.
pub fn can_be_checked(log: &Log) -> bool
    ensures { IsTrue result → CanBeChecked log.now }
{
    let procs = log.header.procs.len();
    if procs < 1 {
        return false;
    }
    if procs > 32 {
        return false;
    }
    if !batches_stand(procs, log.batches.as_slice()) {
        return false;
    }
    are_few(log.batches.as_slice())
}
