//! The system of a conjunction, by the slices of earlier nodes.
ghost use Rattle.std.specs.Prelude.{◌≡◌, ◌^◌, ◌<◌, ◌++◌, length, slice_index, All, IfOk, OnOk};
ghost use Rattle.run_model.specs.Cut.{lengths};
ghost use Rattle.pull_system.specs.System.{IsPull};
ghost use Rattle.pull_fans.specs.Fans.{pulls_of_fans};
ghost use Rattle.slice_graph.specs.Fitting.{FitsOrder};
ghost use Rattle.part_pulls.specs.Operating.{FitsProcesses};
ghost use Rattle.certificate_nodes.specs.Plans.{AreParts, FitsPart, IsPlan, pulls_asked};
ghost use Rattle.certificate_nodes.specs.Plans.{pulls_given, system_of};
ghost use Rattle.certificate_nodes.specs.Given.{AreGiven};

use crate::plan::{Asked, Plan};
use causal_order::Order;
use pota_base::{List, NoMemory, Shape};
use pull_fans::{Fan, System};
use pull_system::Pull;
use rctl_grammar::Operator;
use slice_graph::{Slice, order_fans};
use std::alloc::Global;
use temporal_slice::ex_fans;

/// The system of these parts.
pub(crate) fn system_of(
    alloc: Global,
    order: &Order,
    plan: &Plan,
    slices: &List<Slice>,
    parts: &List<Asked>,
) -> Result<System, NoMemory>
    requires plan { IsPlan (lengths order.now) plan.now }
    requires given { AreGiven order.now plan.now slices.now }
    requires parts { AreParts (lengths order.now) (length slices.now) parts.now }
    ensures { IfOk result (λ system. system ≡ system_of order.now plan.now slices.now parts.now) }
{
    let mut fans = order_fans(alloc, order)?;
    for part in parts.as_slice() {
        push_asked(alloc, order, plan, slices, part, &mut fans)?;
    }
    System::of_fans(alloc, order.shape(), fans)
}

/// Puts what the part asks behind the other pulls.
fn push_asked(
    alloc: Global,
    order: &Order,
    plan: &Plan,
    slices: &List<Slice>,
    part: &Asked,
    fans: &mut List<Fan>,
) -> Result<(), NoMemory>
    requires plan { IsPlan (lengths order.now) plan.now }
    requires given { AreGiven order.now plan.now slices.now }
    requires part { FitsPart (lengths order.now) (length slices.now) part.now }
    ensures { OnOk result (pulls_of_fans fans.new
        ≡ pulls_of_fans fans.old ++ pulls_asked plan.now slices.now part.now) }
{
    match part {
        Asked::Own(pulls) => push_pulls(alloc, order.shape(), pulls, fans),
        Asked::Inner(number) => {
            let index = *number as usize;
            let operator = plan.nodes.get(index).operator;
            push_fans(fans_given(alloc, order, operator, slices.get(index))?, fans)
        }
    }
}

/// Puts a fan for each of the pulls behind the others.
fn push_pulls(
    alloc: Global,
    shape: &Shape,
    pulls: &List<Pull>,
    fans: &mut List<Fan>,
) -> Result<(), NoMemory>
    requires { All (IsPull shape.now) pulls.now }
    ensures { OnOk result (pulls_of_fans fans.new ≡ pulls_of_fans fans.old ++ pulls.now) }
{
    // By its clause the lengths are those of a shape.
    let _procs = shape.procs();
    for pull in pulls.as_slice() {
        fans.push(Fan::of_pull(alloc, pull)?)?;
    }
    Ok(())
}

/// Puts these fans behind the others.
fn push_fans(added: List<Fan>, fans: &mut List<Fan>) -> Result<(), NoMemory>
    ensures { OnOk result
        (pulls_of_fans fans.new ≡ pulls_of_fans fans.old ++ pulls_of_fans added) }
{
    for fan in added.into_vec() {
        fans.push(fan)?;
    }
    Ok(())
}

/// What a part asks by the slice of its node.
fn fans_given(
    alloc: Global,
    order: &Order,
    operator: Operator,
    slice: &Slice,
) -> Result<List<Fan>, NoMemory>
    requires fits { FitsOrder order.now slice.now }
    requires operator { FitsProcesses (length (lengths order.now)) operator }
    ensures { IfOk result (λ fans. pulls_of_fans fans ≡ pulls_given operator slice.now) }
{
    match operator {
        Operator::Ex(process) => ex_fans(alloc, order, slice, process),
        Operator::Ef | Operator::Ag | Operator::Eg | Operator::Af | Operator::Ax => {
            slice.fans(alloc)
        }
    }
}
