//! The system of a conjunction: that of the order's pulls, which conjunctions share and answers
//! hand on, with the conjunction's own pulls behind them, or one of its own.
ghost use Rattle.std.specs.Prelude.{◌≡◌, ◌*◌, ◌-◌, ◌^◌, ◌<◌, ◌++◌, true, false, length, All, IfOk};
ghost use Rattle.std.specs.Prelude.{None, OnOk};
ghost use Rattle.run_model.specs.Cut.{lengths};
ghost use Rattle.pull_system.specs.System.{IsPull};
ghost use Rattle.slice_graph.specs.PullLists.{pulls_of_order};
ghost use Rattle.slice_graph.specs.Growing.{IsEarlierSystem, system_of_order};
ghost use Rattle.conjunctions.specs.Rounds.{HasOrderSystem};
ghost use Rattle.conjunctions.specs.inside.Asked.{asked_pulls};
ghost use Rattle.conjunctions.specs.inside.Beginning.{BeginsWithOrder};
ghost use Rattle.conjunctions.specs.inside.Settling.{KeepsRows};

use crate::gathered::Asked;
use crate::round::Round;
use causal_order::Order;
use pota_base::NoMemory;
use pull_fans::System;
use slice_graph::{grown_order_system, order_fans};
use std::alloc::Global;

/// The system of the order's pulls alone, made from nothing.
fn new_system(alloc: Global, order: &Order) -> Result<System, NoMemory>
    ensures { IfOk result (λ system. system ≡ system_of_order order.now) }
{
    System::of_fans(alloc, order.shape(), order_fans(alloc, order)?)
}

/// The system of the order's pulls, from that of the order itself or of an earlier one.
fn grown(alloc: Global, order: &Order, system: System) -> Result<System, NoMemory>
    requires { IsEarlierSystem order.now system }
    ensures { IfOk result (λ system. system ≡ system_of_order order.now) }
{
    if system.shape().lens() == order.shape().lens() {
        return Ok(system);
    }
    grown_order_system(alloc, order, system)
}

/// The system of the order's pulls alone: the round's, grown to this order, and where it has none a
/// new one.
fn order_system(alloc: Global, order: &Order, round: &mut Round) -> Result<System, NoMemory>
    requires { HasOrderSystem order.now round.old }
    ensures system { IfOk result (λ system. system ≡ system_of_order order.now) }
    ensures round { round.new ≡ record round.old { system = None } }
{
    match round.take_system() {
        Some(system) => grown(alloc, order, system),
        None => new_system(alloc, order),
    }
}

/// The system of what is asked. Where that begins with the order's pulls, it is the round's with
/// the others behind, and the round has none until it is given back.
pub fn system_of_asked(
    alloc: Global,
    order: &Order,
    asked: Asked,
    round: &mut Round,
) -> Result<System, NoMemory>
    requires pulls { All (IsPull (lengths order.now)) (asked_pulls order.now asked) }
    requires count { length (asked_pulls order.now asked) < 2 ^ 32 }
    requires round { HasOrderSystem order.now round.old }
    ensures system { IfOk result (λ system. system
        ≡ record { lens = lengths order.now; pulls = asked_pulls order.now asked }) }
    ensures order { HasOrderSystem order.now round.new }
    ensures rows { KeepsRows round.old round.new }
{
    let Asked { has_order, fans } = asked;
    if has_order {
        return System::of_fans(alloc, order.shape(), fans);
    }
    order_system(alloc, order, round)?.with_fans(alloc, fans)
}

/// Leaves the system to the round without the conjunction's own pulls, where it begins with those
/// of the order.
pub fn give_back(
    alloc: Global,
    order: &Order,
    has_order: bool,
    system: System,
    round: &mut Round,
) -> Result<(), NoMemory>
    requires first { has_order ≡ false → BeginsWithOrder order.now system.pulls }
    requires lens { system.lens ≡ lengths order.now }
    requires round { HasOrderSystem order.now round.old }
    ensures order { HasOrderSystem order.now round.new }
    ensures rows { KeepsRows round.old round.new }
{
    if has_order {
        drop(system);
        return Ok(());
    }
    if !round.is_shared() {
        drop(system);
        return Ok(());
    }
    let procs = order.shape().procs();
    let system = system.with_first_pulls(alloc, procs * (procs - 1))?;
    round.leave_system(system);
    Ok(())
}
