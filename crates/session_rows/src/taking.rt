//! One batch, handed to a session.
ghost use Rattle.std.specs.Prelude.{◌≡◌, ◌+◌, ◌≤◌, false, length, sum, IsTrue};
ghost use Rattle.std.specs.List.{AllByRecursion};
ghost use Rattle.pota_base.specs.Limits.{most_events, most_workers};
ghost use Rattle.event_log.specs.States.{MayFollow};
ghost use Rattle.vector_clock.specs.Events.{EventStands};
ghost use Rattle.trace_growth.specs.Growing.{FitsTrace};

use event_log::{Event, LogFault, States};
use log_fitting::{are_known, events_stand};
use pota_base::{FreeGate, List, MOST_EVENTS, NoMemory, Refused, Shape, Steps};
use session::Session;
use std::sync::ledger::Ledger;
use std::thread::Threads;
use trace_growth::Trace;

/// What became of a batch.
#[derive(Clone, Copy)]
pub enum Taken {
    Whole,
    Refused(LogFault),
    /// It may not be handed to the session.
    Unfit,
}

// Whether so many events more are no more than a trace may have.
fn has_room(shape: &Shape, more: usize) -> bool
    ensures { IsTrue result → sum shape.now + more ≤ most_events }
{
    let before = shape.events() as usize;
    before <= MOST_EVENTS && more <= MOST_EVENTS - before
}

// Whether the events may follow those that are there.
fn may_follow(states: &States, batch: &[Event]) -> bool
    ensures follows { IsTrue result → MayFollow states.now.header states.now.events batch.now }
    ensures each { IsTrue result
        → AllByRecursion (EventStands (length states.now.events)) batch.now }
{
    let shape = states.shape();
    if !has_room(shape, batch.len()) {
        return false;
    }
    if !are_known(states.header(), batch) {
        return false;
    }
    events_stand(shape.procs() as usize, batch)
}

// Whether the batch may be handed to the trace.
fn fits(trace: &Trace, batch: &[Event]) -> bool
    requires { trace.now.spent ≡ false }
    ensures { IsTrue result → FitsTrace trace.now batch.now }
{
    may_follow(trace.states(), batch)
}

/// Hands the batch to the session, if it may be.
pub fn take<R: Threads + Sync, L: Ledger>(
    rt: &R,
    session: &mut Session,
    batch: List<Event>,
    workers: u32,
    steps: &mut Steps<L>,
) -> Result<Taken, NoMemory>
    requires some { 1 ≤ workers }
    requires few { workers ≤ most_workers }
{
    if session.is_spent() || !fits(session.trace(), batch.as_slice()) {
        return Ok(Taken::Unfit);
    }
    match session.extend(rt, batch, workers, &FreeGate, steps) {
        Ok(()) => Ok(Taken::Whole),
        Err(Refused::Fault(fault)) => Ok(Taken::Refused(fault)),
        Err(Refused::NoMemory) => Err(NoMemory),
    }
}
