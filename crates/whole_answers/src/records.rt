//! Records of two lines, read as a log.
ghost use Rattle.std.specs.Prelude.{◌≡◌, ◌≢◌, ℕ, List, IfOk, OnErr};
ghost use Rattle.pota_base.specs.Changes.{of_source};
ghost use Rattle.input_reading.specs.Intakes.{ReadsShort};
ghost use Rattle.whole_answers.specs.inside.Standing.{HasStoodBy, StandsAt, clocks};

use crate::places::Places;
use crate::standing::Standing;
use fault_kinds::Refusal;
use input_reading::{End, Kept, read_all};
use pota_base::{NoMemory, Refused, Source};
use std::alloc::Global;
use vclog_import::import;

// The text as a log.
fn import_all(alloc: Global, text: &[u8]) -> Result<Standing, NoMemory>
    ensures { IfOk result (StandsAt clocks text.now) }
{
    match import(alloc, text) {
        Ok(log) => Ok(Standing::Whole(log, Places::Lines)),
        Err(Refused::Fault(fault)) => Ok(Standing::Faulty(Refusal::Import(fault))),
        Err(Refused::NoMemory) => Err(NoMemory),
    }
}

/// Reads records of two lines to their end, to the byte that is too much, or to a failed read.
pub fn read_records<S: Source>(alloc: Global, source: &mut S) -> Result<Standing, NoMemory>
    ensures reads { IfOk result (HasStoodBy clocks (of_source S.Source source.old source.new)) }
    ensures short { OnErr result (ReadsShort (of_source S.Source source.old source.new)) }
    ensures calm { result ≢ Ok Standing.Failed → S.faults source.new ≡ S.faults source.old }
{
    let mut kept = Kept::new(alloc);
    match read_all(alloc, source, &mut kept)? {
        End::Ended => import_all(alloc, kept.bytes.as_slice()),
        End::Done => import_all(alloc, kept.bytes.as_slice()),
        End::Failed => Ok(Standing::Failed),
    }
}
