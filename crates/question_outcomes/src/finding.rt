//! The least cut of a conjunction, with the system that goes from one to the next.
ghost use Rattle.least_holding.specs.Least.{IsBottomHolding, IsLeastHolding, are_atoms};
ghost use Rattle.part_pulls.specs.Observing.{IsReady, clocks_seen};
ghost use Rattle.question_outcomes.specs.Telling.{HasSystem};
ghost use Rattle.question_outcomes.specs.inside.Telling.{CanTell};
ghost use Rattle.rctl_parts.specs.Pieces.{pieces_of};
ghost use Rattle.slice_graph.specs.Growing.{system_of_order};
ghost use Rattle.std.specs.Prelude.{◌≡◌, true, IfOk, None};

use causal_order::Order;
use cut_lattice::Cut;
use least_holding::{Found, least_holding, order_system};
use part_pulls::Observed;
use pota_base::{NoMemory, Steps};
use pull_fans::System;
use rctl_parts::Part;
use std::alloc::Global;
use std::sync::ledger::Ledger;

// The system that is at hand, or a new one.
fn take_system(
    alloc: Global,
    order: &Order,
    system: &mut Option<System>,
) -> Result<System, NoMemory>
    requires { HasSystem order.now system.old }
    ensures taken { IfOk result (λ taken. taken ≡ system_of_order order.now) }
    ensures left { system.new ≡ None }
{
    match system.take() {
        Some(taken) => Ok(taken),
        None => order_system(alloc, order),
    }
}

/// The least consistent cut at which all of the parts are true, of which none has an operator.
pub fn least_of<L: Ledger>(
    alloc: Global,
    seen: &Observed,
    parts: &[Part],
    system: &mut Option<System>,
    steps: &mut Steps<L>,
) -> Result<Option<Cut>, NoMemory>
    requires ready { IsReady seen.now }
    requires atoms { are_atoms (pieces_of parts.now) ≡ true }
    requires can { CanTell seen.now (pieces_of parts.now) }
    requires system { HasSystem (clocks_seen seen.now) system.old }
    ensures least { IfOk result (IsLeastHolding seen.now (pieces_of parts.now)) }
    ensures bottom { IfOk result (IsBottomHolding seen.now (pieces_of parts.now)) }
    ensures system { HasSystem (clocks_seen seen.now) system.new }
{
    let taken = take_system(alloc, seen.trace.order(), system)?;
    let Found {
        least,
        system: left,
    } = least_holding(alloc, seen, parts, taken, steps)?;
    *system = Some(left);
    Ok(least)
}
