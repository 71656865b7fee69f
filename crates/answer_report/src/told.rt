//! The witnesses of an answer, without a report.
ghost use Rattle.answer_report.specs.Told.{AreWitnessesOf};
ghost use Rattle.conjunctions.specs.Answering.{IsAnswer};
ghost use Rattle.part_pulls.specs.Observing.{AreAnswers, IsReady, Reading, names_seen, run_seen};
ghost use Rattle.pota_names.specs.Names.{is_name};
ghost use Rattle.rctl_parts.specs.Pieces.{Piece};
ghost use Rattle.rctl_parts.specs.Spelled.{part_formulas};
ghost use Rattle.std.specs.List.{AllByRecursion};
ghost use Rattle.std.specs.Prelude.{◌≡◌, true, List, IfOk};

use crate::witnesses::witnesses_told;
use conjunctions::Answer;
use part_pulls::Observed;
use pota_base::{List, NoMemory};
use pota_names::Name;
use report_lines::WitnessText;
use std::alloc::Global;

// Reads the names: by its clause each has the bytes of a name.
fn read_names(names: &[Name])
    ensures { AllByRecursion (λ name. is_name name ≡ true) names.now }
{
    for name in names {
        let _bytes = name.as_bytes();
    }
}

/// The witnesses that go with an answer: those of all parts of the first true disjunct, or where
/// none is true that of the first false part of each.
pub fn witnesses_of(
    alloc: Global,
    seen: &Observed,
    answer: &Answer,
) -> Result<List<WitnessText>, NoMemory>
    requires ready { IsReady seen.now }
    requires answer { (pieces : List (List Piece)) × IsAnswer seen.now pieces answer.now }
    ensures { IfOk result (λ witnesses. (reading : Reading) → AreAnswers seen.now reading
        → (pieces : List (List Piece)) → IsAnswer seen.now pieces answer.now
        → AreWitnessesOf (run_seen seen.now reading)
        (part_formulas (names_seen seen.now reading) pieces) answer.now.truth witnesses) }
{
    read_names(seen.trace.header().procs.as_slice());
    let order = seen.trace.order();
    let witnesses = witnesses_told(alloc, order, answer.parts.as_slice(), answer.truth, true)?;
    Ok(witnesses)
}
