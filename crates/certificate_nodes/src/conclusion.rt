//! The truth of the formula, by the slices of all nodes.
ghost use Rattle.std.specs.Prelude.{◌≡◌, ◌↔◌, ◌+◌, ◌≤◌, length, IfOk, IsTrue};
ghost use Rattle.run_model.specs.Cut.{initial, lengths};
ghost use Rattle.pull_system.specs.System.{IsClosed};
ghost use Rattle.certificate_nodes.specs.Plans.{AreParts, IsPlan, system_of};
ghost use Rattle.certificate_nodes.specs.Given.{AreGiven, SomeCloses};
ghost use Rattle.certificate_nodes.specs.Nodes.{disjunct_looks, looks_of_disjunct};

use crate::plan::{Asked, Plan};
use crate::systems::system_of;
use causal_order::Order;
use pota_base::{List, MOST_PROCESSES, NoMemory, Steps};
use slice_graph::Slice;
use std::alloc::Global;
use std::sync::ledger::Ledger;

/// Whether the initial cut is closed under the system of one of the disjuncts.
pub(crate) fn some_closes<L: Ledger>(
    alloc: Global,
    order: &Order,
    plan: &Plan,
    slices: &List<Slice>,
    steps: &mut Steps<L>,
) -> Result<bool, NoMemory>
    requires plan { IsPlan (lengths order.now) plan.now }
    requires given { AreGiven order.now plan.now slices.now }
    requires all { length slices.now ≡ length plan.now.nodes }
    ensures truth { IfOk result
        (λ found. IsTrue found ↔ SomeCloses order.now plan.now slices.now) }
    ensures looks { steps.new ≤ steps.old + disjunct_looks order.now plan.now slices.now }
{
    for parts in plan.disjuncts.as_slice() {
        if closes(alloc, order, plan, slices, parts, steps)? {
            return Ok(true);
        }
    }
    Ok(false)
}

/// Whether the initial cut is closed under the system of these parts.
fn closes<L: Ledger>(
    alloc: Global,
    order: &Order,
    plan: &Plan,
    slices: &List<Slice>,
    parts: &List<Asked>,
    steps: &mut Steps<L>,
) -> Result<bool, NoMemory>
    requires plan { IsPlan (lengths order.now) plan.now }
    requires given { AreGiven order.now plan.now slices.now }
    requires parts { AreParts (lengths order.now) (length slices.now) parts.now }
    ensures truth { IfOk result (λ found. IsTrue found
        ↔ IsClosed (system_of order.now plan.now slices.now parts.now) (initial order.now)) }
    ensures looks { steps.new
        ≤ steps.old + looks_of_disjunct order.now plan.now slices.now parts.now }
{
    let procs = order.shape().procs();
    let system = system_of(alloc, order, plan, slices, parts)?;
    let zeros = [0; MOST_PROCESSES];
    Ok(system.is_closed(&zeros[..procs as usize], steps))
}
