//! Batches that may leave clocks out, and the checks of whole logs.
ghost use Rattle.std.specs.Prelude.{◌≡◌, false, Some, None, length, sum, IfOk, OnOk, IsTrue};
ghost use Rattle.std.specs.List.{AllByRecursion};
ghost use Rattle.run_model.specs.Cut.{lengths};
ghost use Rattle.event_log.specs.States.{with_batch, with_batches};
ghost use Rattle.vector_clock.specs.Events.{Events, BatchStands, CanBeChecked, no_events};
ghost use Rattle.vector_clock.specs.Events.{clocks_of};
ghost use Rattle.vector_clock.specs.Faults.{batch_fault, log_fault};
ghost use Rattle.vector_clock.specs.Filled.{is_left_out, filled_batch, filled_log};
ghost use Rattle.vector_clock.specs.Admitted.{HasAdmitted, IfFault};

use crate::clocks::Clocks;
use causal_order::Order;
use event_log::{Event, Log, LogFault};
use pota_base::{List, NoMemory, Refused};
use std::alloc::Global;

// Whether each clock is written.
fn are_written(batch: &[Event]) -> bool
    ensures { IsTrue result → AllByRecursion (λ e. is_left_out e ≡ false) batch.now }
{
    for event in batch {
        if event.clock.is_empty() {
            return false;
        }
    }
    true
}

/// The events of a batch with the clocks that it leaves out, as `Clocks::fill` gives them. A batch
/// all of whose clocks are written is handed back as it is: it costs a look at the length of each.
pub fn filled(clocks: &Clocks, alloc: Global, batch: List<Event>) -> Result<List<Event>, NoMemory>
    requires { BatchStands (length clocks.now.order) (sum (lengths clocks.now.order)) batch }
    ensures { IfOk result (λ filled. (events : Events) → HasAdmitted clocks.now events
        → filled ≡ filled_batch events batch) }
{
    if are_written(batch.as_slice()) {
        return Ok(batch);
    }
    clocks.fill(alloc, batch.as_slice())
}

// Admits a batch with the clocks that it leaves out. Only where there are some it is copied.
fn admit_filled(
    clocks: &mut Clocks,
    alloc: Global,
    batch: &[Event],
) -> Result<(), Refused<LogFault>>
    requires stands { BatchStands (length clocks.old.order) (sum (lengths clocks.old.order))
        batch.now }
    requires admitted { (events : Events) × HasAdmitted clocks.old events }
    ensures ok { OnOk result ((events : Events) → HasAdmitted clocks.old events
        → (batch_fault events (filled_batch events batch.now) ≡ None)
        × HasAdmitted clocks.new (with_batch events (filled_batch events batch.now))) }
    ensures fault { IfFault result (λ fault. (events : Events) → HasAdmitted clocks.old events
        → batch_fault events (filled_batch events batch.now) ≡ Some fault) }
{
    if are_written(batch) {
        return clocks.admit(batch);
    }
    let batch = clocks.fill(alloc, batch)?;
    clocks.admit(batch.as_slice())
}

/// Checks the batches of a log in turn, each with the clocks that it leaves out, and gives the
/// order of its events. A fault is the first one.
pub fn check(alloc: Global, log: &Log) -> Result<Order, Refused<LogFault>>
    requires { CanBeChecked log.now }
    ensures ok { IfOk result (λ order. (log_fault (filled_log log.now) ≡ None) × (order
        ≡ clocks_of (with_batches (no_events (length log.now.header.procs))
        (filled_log log.now).batches))) }
    ensures fault { IfFault result (λ fault. log_fault (filled_log log.now) ≡ Some fault) }
{
    let mut clocks = Clocks::new(alloc, log.header.procs.len() as u32)?;
    for batch in log.batches.as_slice() {
        match admit_filled(&mut clocks, alloc, batch.as_slice()) {
            Ok(()) => {}
            Err(refused) => return Err(refused),
        }
    }
    Ok(clocks.into_order())
}
