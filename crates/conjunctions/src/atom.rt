//! Atoms among the parts of a conjunction.
ghost use Rattle.std.specs.Prelude.{◌≡◌, ◌∷◌, [], true, IfOk, OnOk};
ghost use Rattle.rctl_parts.specs.Pieces.{piece_of};
ghost use Rattle.rctl_parts.specs.MadeFor.{PieceFits};
ghost use Rattle.part_pulls.specs.Observing.{IsReady, scope_seen};
ghost use Rattle.part_pulls.specs.Counters.{AllRise, counters_of_part};
ghost use Rattle.part_pulls.specs.Systems.{is_atom};
ghost use Rattle.conjunctions.specs.inside.Beginning.{KeepsFloor};
ghost use Rattle.conjunctions.specs.inside.Gathering.{AddsPulls};
ghost use Rattle.conjunctions.specs.Answering.{HoldsAtFirst};

use crate::gathered::Gathered;
use part_pulls::{Observed, pulls_of_atom};
use pota_base::NoMemory;
use rctl_parts::Part;
use std::alloc::Global;

/// Puts the pulls of a part that isn't temporal behind the others, and tells its truth at the
/// initial cut.
pub fn add_atom(
    alloc: Global,
    seen: &Observed,
    part: &Part,
    gathered: &mut Gathered,
) -> Result<bool, NoMemory>
    requires ready { IsReady seen.now }
    requires atom { is_atom (piece_of part.now) ≡ true }
    requires fits { PieceFits (scope_seen seen.now) (piece_of part.now) }
    requires counters { AllRise seen.now (counters_of_part (piece_of part.now)) }
    ensures pulls { OnOk result
        (AddsPulls seen.now gathered.old.pulls gathered.new.pulls (piece_of part.now ∷ [])) }
    ensures order { gathered.new.order ≡ gathered.old.order }
    ensures floor { OnOk result (KeepsFloor gathered.old gathered.new) }
    ensures truth { IfOk result (HoldsAtFirst seen.now (piece_of part.now)) }
{
    let found = pulls_of_atom(alloc, seen, part)?;
    gathered.add_pulls(alloc, seen.trace.order().shape(), found.pulls.as_slice())?;
    Ok(found.truth)
}
