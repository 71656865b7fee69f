//! The least cut of one conjunction after the other.
ghost use Rattle.least_holding.specs.Least.{IsBottomHolding, IsLeastHolding, are_atoms};
ghost use Rattle.part_pulls.specs.Counters.{AllRise, counters_of_parts};
ghost use Rattle.part_pulls.specs.Observing.{IsReady, clocks_seen, scope_seen};
ghost use Rattle.rctl_parts.specs.MadeFor.{EachFits};
ghost use Rattle.rctl_parts.specs.Pieces.{pieces_of};
ghost use Rattle.slice_graph.specs.Growing.{system_of_order};
ghost use Rattle.std.specs.Prelude.{◌≡◌, ◌≤◌, length, true, IfOk};
ghost use Rattle.pota_base.specs.Limits.{most_parts};

use crate::asking::fans_of_atoms;
use crate::finding::least_cut_of;
use causal_order::Order;
use cut_lattice::Cut;
use part_pulls::Observed;
use pota_base::{NoMemory, Steps};
use pull_fans::System;
use rctl_parts::Part;
use slice_graph::order_fans;
use std::alloc::Global;
use std::sync::ledger::Ledger;

/// What was found for a conjunction, and the system of the order's pulls again.
#[derive(Drop)]
pub struct Found {
    /// The least consistent cut at which all parts are true.
    pub least: Option<Cut>,
    pub system: System,
}

/// The system of the order's pulls alone.
pub fn order_system(alloc: Global, order: &Order) -> Result<System, NoMemory>
    ensures { IfOk result (λ system. system ≡ system_of_order order.now) }
{
    System::of_fans(alloc, order.shape(), order_fans(alloc, order)?)
}

/// The least consistent cut at which all of these parts are true, of which none has an operator.
/// The system is that of the order's pulls; the parts' own are put behind it and taken off again.
pub fn least_holding<L: Ledger>(
    alloc: Global,
    seen: &Observed,
    parts: &[Part],
    system: System,
    steps: &mut Steps<L>,
) -> Result<Found, NoMemory>
    requires ready { IsReady seen.now }
    requires atoms { are_atoms (pieces_of parts.now) ≡ true }
    requires fits { EachFits (scope_seen seen.now) (pieces_of parts.now) }
    requires counters { AllRise seen.now (counters_of_parts (pieces_of parts.now)) }
    requires few { length parts.now ≤ most_parts }
    requires system { system ≡ system_of_order (clocks_seen seen.now) }
    ensures least { IfOk result
        (λ found. IsLeastHolding seen.now (pieces_of parts.now) found.least) }
    ensures bottom { IfOk result
        (λ found. IsBottomHolding seen.now (pieces_of parts.now) found.least) }
    ensures system { IfOk result (λ found. found.system ≡ system_of_order (clocks_seen seen.now)) }
{
    let procs = seen.trace.order().shape().procs();
    let fans = fans_of_atoms(alloc, seen, parts)?;
    let system = system.with_fans(alloc, fans)?;
    let least = least_cut_of(alloc, &system, steps)?;
    let system = system.with_first_pulls(alloc, procs * (procs - 1))?;
    Ok(Found { least, system })
}
