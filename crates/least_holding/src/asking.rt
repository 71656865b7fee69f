//! What the parts of a conjunction ask of cuts.
ghost use Rattle.least_holding.specs.Least.{are_atoms};
ghost use Rattle.least_holding.specs.inside.Asking.{AsksMore};
ghost use Rattle.part_pulls.specs.Counters.{AllRise, counters_of_part, counters_of_parts};
ghost use Rattle.part_pulls.specs.Observing.{IsReady, lens_seen, scope_seen};
ghost use Rattle.part_pulls.specs.Systems.{is_atom};
ghost use Rattle.pull_fans.specs.Fans.{pulls_of_fans};
ghost use Rattle.pull_system.specs.System.{IsPull};
ghost use Rattle.rctl_parts.specs.MadeFor.{EachFits, PieceFits};
ghost use Rattle.rctl_parts.specs.Pieces.{piece_of, pieces_of};
ghost use Rattle.std.specs.Prelude.{◌≡◌, ◌∷◌, ◌++◌, [], true, All, IfOk, OnOk};

use part_pulls::{Observed, pulls_of_atom};
use pota_base::{List, NoMemory, Shape};
use pull_fans::Fan;
use pull_system::Pull;
use rctl_parts::Part;
use std::alloc::Global;

// Puts a fan of each pull behind the others.
fn push_pulls(
    alloc: Global,
    shape: &Shape,
    pulls: &[Pull],
    fans: &mut List<Fan>,
) -> Result<(), NoMemory>
    requires { All (IsPull shape.now) pulls.now }
    ensures { OnOk result (pulls_of_fans fans.new ≡ pulls_of_fans fans.old ++ pulls.now) }
{
    // By its clause the lengths are those of a shape.
    let _procs = shape.procs();
    for pull in pulls {
        fans.push(Fan::of_pull(alloc, pull)?)?;
    }
    Ok(())
}

// Puts what a part asks behind what the others do.
fn push_asked(
    alloc: Global,
    seen: &Observed,
    part: &Part,
    fans: &mut List<Fan>,
) -> Result<(), NoMemory>
    requires ready { IsReady seen.now }
    requires atom { is_atom (piece_of part.now) ≡ true }
    requires fits { PieceFits (scope_seen seen.now) (piece_of part.now) }
    requires counters { AllRise seen.now (counters_of_part (piece_of part.now)) }
    ensures { OnOk result (AsksMore seen.now
        (pulls_of_fans fans.old) (pulls_of_fans fans.new) (piece_of part.now ∷ [])) }
{
    let shape = seen.trace.order().shape();
    let found = pulls_of_atom(alloc, seen, part)?;
    push_pulls(alloc, shape, found.pulls.as_slice(), fans)?;
    Ok(())
}

/// What the parts ask: a consistent cut is closed under it exactly where all of them are true.
pub fn fans_of_atoms(alloc: Global, seen: &Observed, parts: &[Part]) -> Result<List<Fan>, NoMemory>
    requires ready { IsReady seen.now }
    requires atoms { are_atoms (pieces_of parts.now) ≡ true }
    requires fits { EachFits (scope_seen seen.now) (pieces_of parts.now) }
    requires counters { AllRise seen.now (counters_of_parts (pieces_of parts.now)) }
    ensures { IfOk result
        (λ fans. AsksMore seen.now [] (pulls_of_fans fans) (pieces_of parts.now)) }
{
    let mut fans = List::new(alloc);
    'parts: for part in parts {
        push_asked(alloc, seen, part, &mut fans)?;
    }
    Ok(fans)
}
