//! The order of a case's events.
ghost use Rattle.std.specs.Prelude.{◌+◌, ◌≤◌, IsTrue, length};
ghost use Rattle.std.specs.List.{AllByRecursion};
ghost use Rattle.vector_clock.specs.Events.{EventFits};

use event_log::{Event, Kind};
use pota_base::{MOST_EVENTS, NoMemory, Refused};
use std::alloc::Global;
use vector_clock::Clocks;

// Whether each event is local, of one of so many processes, and has a count for each of them.
fn events_fit(procs: usize, events: &[Event]) -> bool
    ensures { IsTrue result → AllByRecursion (EventFits procs) events.now }
{
    for event in events {
        if !event_fits(procs, event) {
            return false;
        }
    }
    true
}

fn event_fits(procs: usize, event: &Event) -> bool
    ensures { IsTrue result → EventFits procs event.now }
{
    if event.process as usize >= procs || event.clock.len() != procs {
        return false;
    }
    match event.kind {
        Kind::Internal => true,
        Kind::Send { .. } | Kind::Receive { .. } => false,
    }
}

/// The clocks of a run of so many processes, and none where the events' clocks are not those of a
/// run.
pub fn clocks_of(alloc: Global, procs: u32, events: &[Event]) -> Result<Option<Clocks>, NoMemory> {
    if procs < 1 || procs > 32 {
        return Ok(None);
    }
    let mut clocks = Clocks::new(alloc, procs)?;
    let shape = clocks.order().shape();
    let before = shape.events() as usize;
    if !events_fit(shape.procs() as usize, events) || events.len() > MOST_EVENTS - before {
        return Ok(None);
    }
    match clocks.admit(events) {
        Ok(()) => Ok(Some(clocks)),
        Err(Refused::Fault(_)) => Ok(None),
        Err(Refused::NoMemory) => Err(NoMemory),
    }
}
