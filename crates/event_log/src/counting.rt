//! How many events of a batch each process has.
ghost use Rattle.std.specs.Prelude.{◌≡◌, ◌<◌, ◌≤◌, [], length, map, replicate};
ghost use Rattle.std.specs.List.{AllByRecursion};
ghost use Rattle.pota_base.specs.Limits.{most_events, most_processes};
ghost use Rattle.event_log.specs.declared.log.Event.{Event};
ghost use Rattle.event_log.specs.States.{with_batch};

use crate::log::Event;
use pota_base::MOST_PROCESSES;

/// From how many events on a batch is counted, so that there is room for all of them at once.
pub const MANY_EVENTS: usize = 64;

/// How many of the events each process has.
pub fn count_events(events: &[Event]) -> [u32; MOST_PROCESSES]
    requires each { AllByRecursion (λ (e : Event). e.process < most_processes) events.now }
    requires few { length events.now ≤ most_events }
    ensures { result ≡ map length (with_batch (replicate most_processes []) events.now) }
{
    let mut counts = [0; MOST_PROCESSES];
    for event in events {
        counts[event.process as usize] += 1;
    }
    counts
}
