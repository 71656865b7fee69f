//! The first fault of a batch behind the events that were admitted.
ghost use Rattle.std.specs.Prelude.{◌≡◌, ℕ, ◌+◌, ◌-◌, ◌<◌, ◌≤◌, [], length, get_or, sum, None};
ghost use Rattle.std.specs.Prelude.{IfOk, OnOk};
ghost use Rattle.std.specs.List.{AllByRecursion};
ghost use Rattle.run_model.specs.Cut.{lengths};
ghost use Rattle.run_model.specs.Consistent.{IsOrder};
ghost use Rattle.event_log.specs.States.{with_batch};
ghost use Rattle.causal_order.specs.Growth.{with_clocks};
ghost use Rattle.vector_clock.specs.Events.{Events, EventFits, BatchFits, clocks_of};
ghost use Rattle.vector_clock.specs.inside.Events.{raised};
ghost use Rattle.vector_clock.specs.Faults.{batch_fault, clock_fault as fault_of_clock};
ghost use Rattle.vector_clock.specs.Faults.{event_fault as fault_of_event};
ghost use Rattle.vector_clock.specs.Sound.{IsSound};
ghost use Rattle.vector_clock.specs.inside.Sound.{AreSoundUpTo};
ghost use Rattle.vector_clock.specs.Admitted.{HasMessages};
ghost use Rattle.vector_clock.specs.inside.Admitted.{StandsIn};

use crate::joined::Joined;
use crate::messages::Messages;
use causal_order::Order;
use event_log::{Event, LogCode, LogFault};
use pota_base::NoMemory;
use std::alloc::Global;

// The first fault of an event at its place: of its clock, then of its message.
fn event_fault(
    joined: &Joined<'_>,
    messages: &Messages,
    event: &Event,
    place: u32,
    judged: &[u32],
) -> Option<LogCode>
    requires fits { EventFits (length joined.now) event.now }
    requires first { 1 ≤ place }
    requires place { place ≤ length (get_or joined.now event.now.process []) }
    requires before { 1 < place → IsSound joined.now event.now.process (place - 1) }
    requires judged { AreSoundUpTo joined.now judged.now }
    ensures clock { result ≡ None → fault_of_clock joined.now place event.now ≡ None }
    ensures first { (before all : Events) → joined.now ≡ clocks_of all
        → HasMessages messages.now all → StandsIn before all event.now place
        → result ≡ fault_of_event before all event.now }
{
    match joined.clock_fault(event, place, judged) {
        Some(code) => Some(code),
        None => messages.message_fault(event, place),
    }
}

/// Makes the counts what `lens` has. It takes memory only where they have too little.
pub fn set_counts(counts: &mut Vec<u32>, lens: &[u32]) -> Result<(), NoMemory>
    ensures { OnOk result (counts.new.items ≡ lens.now) }
{
    counts.clear();
    counts.extend_from_slice(lens)?;
    Ok(())
}

/// The first fault of a batch. The messages are those up to the end of the batch, and `lens` has
/// how many events each process has then. It counts the events that it has judged in `judged`.
pub fn first_fault(
    alloc: Global,
    order: &Order,
    messages: &Messages,
    batch: &[Event],
    lens: &[u32],
    judged: &mut Vec<u32>,
) -> Result<Option<LogFault>, NoMemory>
    requires lens { lens.now ≡ raised (lengths order.now) batch.now }
    requires fits { BatchFits (length order.now) (sum (lengths order.now)) batch.now }
    ensures fault { IfOk result (λ fault. (before : Events) → order.now ≡ clocks_of before
        → HasMessages messages.now (with_batch before batch.now)
        → fault ≡ batch_fault before batch.now) }
    ensures order { IfOk result (λ fault. fault ≡ None
        → IsOrder (with_clocks order.now batch.now)) }
{
    let joined = Joined::new(alloc, order, batch, lens)?;
    set_counts(judged, order.shape().lens())?;
    for event in batch {
        let place = judged[event.process as usize] + 1;
        if let Some(code) = event_fault(&joined, messages, event, place, judged) {
            return Ok(Some(LogFault {
                code,
                line: event.line,
            }));
        }
        judged[event.process as usize] = place;
    }
    Ok(None)
}
