//! What was observed, without watches.
ghost use Rattle.over_answers.specs.Tallies.{bare_of};
ghost use Rattle.std.specs.Prelude.{◌≡◌};

use observation::Observation;
use part_pulls::Observed;
use pota_base::List;
use std::alloc::Global;

/// What was observed, without what watches answered.
pub fn without_watches(alloc: Global, observation: Observation) -> Observed
    ensures { result ≡ bare_of observation.growing.seen.trace }
{
    let (seen, disjuncts) = observation.into_seen();
    drop(disjuncts);
    let Observed { trace, .. } = seen;
    Observed {
        trace,
        watch_process: List::new(alloc),
        watch_rows: List::new(alloc),
    }
}
