//! Several logs one behind another, read as one.
ghost use Rattle.std.specs.Prelude.{◌≡◌, ◌≢◌, IfOk, OnErr};
ghost use Rattle.pota_base.specs.Changes.{of_source};
ghost use Rattle.input_reading.specs.Intakes.{ReadsShort};
ghost use Rattle.log_merge.specs.Merging.{merged};
ghost use Rattle.log_sources.specs.Reading.{CanMerge};
ghost use Rattle.whole_answers.specs.declared.places.Places.TheVariants.{Origins};
ghost use Rattle.whole_answers.specs.declared.standing.Standing.TheVariants.{Whole};
ghost use Rattle.whole_answers.specs.inside.Standing.{HasStoodBy, sources};

use crate::places::Places;
use crate::standing::Standing;
use event_log::Log;
use fault_kinds::Refusal;
use log_merge::{Merged, merge};
use log_sources::{Gathered, gather};
use pota_base::{NoMemory, Refused, Source};
use std::alloc::Global;

// The logs merged.
fn merge_all(alloc: Global, logs: &[Log]) -> Result<Standing, NoMemory>
    requires { CanMerge logs.now }
    ensures { IfOk result (λ standing. standing
        ≡ Whole (merged logs.now).log (Origins (merged logs.now).origins)) }
{
    match merge(alloc, logs) {
        Ok(merged) => {
            let Merged { log, origins } = merged;
            Ok(Standing::Whole(log, Places::Origins(origins)))
        }
        Err(Refused::Fault(_)) => unreachable!(),
        Err(Refused::NoMemory) => Err(NoMemory),
    }
}

/// Reads several logs to the end of the input, to their first fault, or to a failed read, and
/// merges them.
pub fn read_sources<S: Source>(alloc: Global, source: &mut S) -> Result<Standing, NoMemory>
    ensures reads { IfOk result (HasStoodBy sources (of_source S.Source source.old source.new)) }
    ensures short { OnErr result (ReadsShort (of_source S.Source source.old source.new)) }
    ensures calm { result ≢ Ok Standing.Failed → S.faults source.new ≡ S.faults source.old }
{
    match gather(alloc, source)? {
        Gathered::Logs(logs) => merge_all(alloc, logs.as_slice()),
        Gathered::Fault(fault) => Ok(Standing::Faulty(Refusal::Merge(fault))),
        Gathered::Failed => Ok(Standing::Failed),
    }
}
