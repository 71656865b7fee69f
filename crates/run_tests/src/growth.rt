ghost use Rattle.std.specs.Prelude.{◌≡◌, ◌≤◌, length, IfOk};
ghost use Rattle.std.specs.List.{AllByRecursion};
ghost use Rattle.pota_base.specs.Limits.{most_events};
ghost use Rattle.event_log.specs.declared.log.Header.{Header};
ghost use Rattle.event_log.specs.States.{IsHeader, IsKnown};
ghost use Rattle.vector_clock.specs.Events.{EventFits};

use crate::events::{a_message, add, p_and_q};
use event_log::{Event, Header, Kind, LogCode, LogFault, var_lines_of};
use pota_base::{EventId, List, NoMemory, Refused};
use std::alloc::Global;
use std::process::Abort;
use trace_growth::Trace;

// So many events of the first of two processes.
fn many_events(alloc: Global, count: u32) -> Result<List<Event>, NoMemory>
    requires { count ≤ most_events }
    ensures fits { IfOk result (λ batch. AllByRecursion (EventFits 2) batch) }
    ensures known { IfOk result (λ batch. (h : Header) → length h.procs ≡ 2
        → AllByRecursion (IsKnown h) batch) }
    ensures len { IfOk result (λ batch. length batch ≤ most_events) }
{
    let mut batch = List::new(alloc);
    for before in 0..count {
        let clock = [before + 1, 0];
        add(alloc, &mut batch, 0, before + 3, &clock, Kind::Internal)?;
    }
    Ok(batch)
}

// `procs P Q`
fn two_processes(rt: &impl Abort, alloc: Global) -> Result<Header, NoMemory>
    ensures { IfOk result (λ h. IsHeader h × (length h.procs ≡ 2)) }
{
    let procs = p_and_q(rt, alloc)?;
    let mut vars = List::new(alloc);
    vars.push(List::new(alloc))?;
    vars.push(List::new(alloc))?;
    let var_lines = var_lines_of(alloc, vars.as_slice())?;
    Ok(Header {
        version: 1,
        procs,
        vars,
        var_lines,
    })
}

// A trace of two processes that was given the batch, and the fault of the batch.
#[tactic(auto, using(crate::proofs::Standing::fits_stand))]
fn extended(
    rt: &impl Abort,
    alloc: Global,
    batch: List<Event>,
) -> Result<(Trace, Option<LogFault>), NoMemory>
    requires fits { AllByRecursion (EventFits 2) batch }
    requires known { (h : Header) → length h.procs ≡ 2 → AllByRecursion (IsKnown h) batch }
    requires len { length batch ≤ most_events }
{
    let mut trace = Trace::new(alloc, two_processes(rt, alloc)?)?;
    match trace.extend(batch) {
        Ok(()) => Ok((trace, None)),
        Err(Refused::Fault(fault)) => Ok((trace, Some(fault))),
        Err(Refused::NoMemory) => Err(NoMemory),
    }
}

// That the trace has taken the message.
fn has_the_message(rt: &impl Abort, trace: &Trace) {
    assert!(rt; !trace.is_spent());
    assert!(rt; trace.batches() == 1);
    assert!(rt; trace.states().shape().lens() == [1, 1].as_slice());
    let received = EventId {
        process: 1,
        position: 1,
    };
    assert!(rt; trace.event(received).line == 4);
}

#[test]
fn a_batch_is_taken(rt: HostRuntime) -> Result<(), NoMemory> {
    let (trace, fault) = extended(&rt, rt.alloc(), a_message(rt.alloc(), 1)?)?;
    assert!(rt; fault == None);
    has_the_message(&rt, &trace);
    Ok(())
}

// That the trace has taken nothing, and may take more.
fn has_nothing(rt: &impl Abort, trace: &Trace) {
    assert!(rt; !trace.is_spent());
    assert!(rt; trace.batches() == 0);
    assert!(rt; trace.order().shape().events() == 0);
}

#[test]
fn a_batch_with_a_fault_is_not_taken(rt: HostRuntime) -> Result<(), NoMemory> {
    let (trace, fault) = extended(&rt, rt.alloc(), a_message(rt.alloc(), 0)?)?;
    let wanted = LogFault {
        code: LogCode::ReceiveEarly,
        line: 4,
    };
    assert!(rt; fault == Some(wanted));
    has_nothing(&rt, &trace);
    Ok(())
}

// That the trace has taken 10,000 events of P, and one in their midst.
fn has_many(rt: &impl Abort, trace: &Trace) {
    assert!(rt; !trace.is_spent());
    assert!(rt; trace.states().shape().lens() == [10_000, 0].as_slice());
    let middle = EventId {
        process: 0,
        position: 4_097,
    };
    assert!(rt; trace.event(middle).line == 4_099);
}

// Room for all events of a large batch is taken at once, and its memory given back piece by piece.
#[test]
fn a_large_batch_is_taken(rt: HostRuntime) -> Result<(), NoMemory> {
    let (trace, fault) = extended(&rt, rt.alloc(), many_events(rt.alloc(), 10_000)?)?;
    assert!(rt; fault == None);
    has_many(&rt, &trace);
    Ok(())
}
