ghost use Rattle.std.specs.Prelude.{◌≡◌, ◌≤◌, length, IfOk, IsTrue};
ghost use Rattle.std.specs.List.{AllByRecursion};
ghost use Rattle.vector_clock.specs.Events.{CanBeChecked, EventFits};

use crate::events::{a_message, p_and_q};
use causal_order::Order;
use cut_lattice::Cut;
use event_log::{Event, Header, Log, LogCode, LogFault};
use pota_base::{EventId, List, NoMemory, Refused};
use std::alloc::Global;
use std::process::Abort;
use vector_clock::{Clocks, check};

const SENT: EventId = EventId {
    process: 0,
    position: 1,
};

const RECEIVED: EventId = EventId {
    process: 1,
    position: 1,
};

// The log of two processes with this batch.
#[tactic(auto, using(crate::proofs::Standing::fits_stand))]
fn log_of(rt: &impl Abort, alloc: Global, batch: List<Event>) -> Result<Log, NoMemory>
    requires fits { AllByRecursion (EventFits 2) batch }
    requires len { length batch ≤ 2 }
    ensures { IfOk result CanBeChecked }
{
    let procs = p_and_q(rt, alloc)?;
    let mut batches = List::new(alloc);
    batches.push(batch)?;
    let header = Header {
        version: 1,
        procs,
        vars: List::new(alloc),
        var_lines: List::new(alloc),
    };
    Ok(Log { header, batches })
}

// The order of a message from P to Q, if its log has no fault.
fn order_of_a_message(rt: &impl Abort, alloc: Global) -> Result<Option<Order>, NoMemory> {
    let log = log_of(rt, alloc, a_message(alloc, 1)?)?;
    match check(alloc, &log) {
        Ok(order) => Ok(Some(order)),
        Err(Refused::Fault(_)) => Ok(None),
        Err(Refused::NoMemory) => Err(NoMemory),
    }
}

fn has_two_processes(order: &Order) -> bool
    ensures { IsTrue result → length order.now ≡ 2 }
{
    order.shape().procs() == 2
}

// That the one event of P happened before that of Q.
fn has_a_message(rt: &impl Abort, order: &Order) {
    assert!(rt; order.shape().lens() == [1, 1].as_slice());
    assert!(rt; order.before(SENT, RECEIVED));
    assert!(rt; !order.before(RECEIVED, SENT));
}

// A cut with so many events of each process.
fn cut_of(alloc: Global, of_p: u32, of_q: u32) -> Result<Cut, NoMemory>
    ensures { IfOk result (λ cut. length cut ≡ 2) }
{
    let mut cut = Cut::new(alloc, 2)?;
    cut.set(0, of_p);
    cut.set(1, of_q);
    Ok(cut)
}

// That the cut without events is consistent and P may go on in it, and that the receiving alone is
// no consistent cut.
fn has_cuts(rt: &impl Abort, order: &Order, without: &Cut, lone: &Cut)
    requires without { length without.now ≡ 2 }
    requires lone { length lone.now ≡ 2 }
{
    assert!(rt; has_two_processes(order));
    assert!(rt; !order.is_consistent(lone));
    assert!(rt; order.is_consistent(without));
    assert!(rt; order.can_take(without, 0));
    assert!(rt; !order.can_take(without, 1));
}

// The least consistent cut that has the receiving.
fn past_of_receiving(rt: &impl Abort, alloc: Global, order: &Order) -> Result<Cut, NoMemory> {
    assert!(rt; has_two_processes(order));
    assert!(rt; order.shape().lens() == [1, 1].as_slice());
    let mut cut = Cut::new(alloc, 2)?;
    order.past_into(RECEIVED, &mut cut);
    Ok(cut)
}

// That the order has these events and cuts.
fn is_of_a_message(rt: &impl Abort, alloc: Global, order: &Order) -> Result<(), NoMemory> {
    has_a_message(rt, order);
    has_cuts(rt, order, &cut_of(alloc, 0, 0)?, &cut_of(alloc, 0, 1)?);
    let past = past_of_receiving(rt, alloc, order)?;
    assert!(rt; past.as_slice() == [1, 1].as_slice());
    Ok(())
}

#[test]
fn a_log_without_a_fault(rt: HostRuntime) -> Result<(), NoMemory> {
    let order = order_of_a_message(&rt, rt.alloc())?;
    is_of_a_message(&rt, rt.alloc(), &order.expect(&rt, "no fault"))
}

// The fault of a receiving whose clock lacks its sending, and how many events are admitted.
fn refused(alloc: Global) -> Result<(Option<LogFault>, u32), NoMemory> {
    let mut clocks = Clocks::new(alloc, 2)?;
    let early = a_message(alloc, 0)?;
    let fault = match clocks.admit(early.as_slice()) {
        Err(Refused::Fault(fault)) => Some(fault),
        _ => None,
    };
    Ok((fault, clocks.order().shape().events()))
}

#[test]
fn a_batch_with_a_fault(rt: HostRuntime) -> Result<(), NoMemory> {
    let (fault, events) = refused(rt.alloc())?;
    let wanted = LogFault {
        code: LogCode::ReceiveEarly,
        line: 4,
    };
    assert!(rt; fault == Some(wanted));
    assert!(rt; events == 0);
    Ok(())
}
