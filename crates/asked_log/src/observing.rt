//! What is observed of a whole log for questions.
ghost use Rattle.asked_log.specs.inside.Observing.{CanTake, FallsIn, IsObservedLog, IsOpened};
ghost use Rattle.asked_log.specs.inside.Observing.{Refuses};
ghost use Rattle.std.specs.Prelude.{IfErr, IfOk};
ghost use Rattle.watch.specs.Saying.{said_by};

use event_log::{Event, LogFault};
use observation::Observation;
use pota_base::{List, Refused};
use watch::Watch;

/// Takes all batches of a log. `Fault` is that of the first event which leaves a counter of the
/// questions lower than it was.
pub fn observe_all(
    observation: Observation,
    batches: List<List<Event>>,
) -> Result<Observation, Refused<LogFault>>
    requires can { CanTake observation.growing.seen.trace.states.header batches }
    requires opened { IsOpened observation.growing }
    ensures ok { IfOk result (IsObservedLog (said_by answers) batches observation) }
    ensures fault { IfErr result
        (λ stop. Refuses stop (FallsIn batches observation.growing)) }
{
    let mut observed = observation;
    let mut rest = batches.into_vec().into_iter();
    while let Some(batch) = rest.next() {
        match observed.observe(batch) {
            Ok(()) => {}
            Err(stop) => return Err(stop),
        }
    }
    Ok(observed)
}
