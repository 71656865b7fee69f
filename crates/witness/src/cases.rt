//! The witness of each temporal operator.

ghost use Rattle.std.specs.Prelude.{◌≡◌, ◌<◌, ◌↔◌, length, IfOk, IfSome, IsTrue};
ghost use Rattle.run_model.specs.Cut.{count, initial, lengths};
ghost use Rattle.run_model.specs.Run.{Run};
ghost use Rattle.run_model.specs.Consistent.{IsConsistent};
ghost use Rattle.run_model.specs.Sublattice.{IsSublattice};
ghost use Rattle.run_model.specs.Slice.{Cuts, Slice as SliceOf, StandsFor};
ghost use Rattle.run_model.specs.Formula.{Formula};
ghost use Rattle.run_model.specs.Meaning.{Family};
ghost use Rattle.run_model.specs.Witness.{FirstStepsTo, IsFirst, IsPlace, Place, Shares};
ghost use Rattle.run_model.specs.Witness.{IsCanonical, IsOfKind, IsPartOf};
ghost use Rattle.run_model.specs.Witness.{ForEf as Finally, ForAg as Always};
ghost use Rattle.run_model.specs.Witness.{ForEg as Globally, ExistsNext as Next};
ghost use Rattle.slice_graph.specs.Views.{slice_of};
ghost use Rattle.slice_graph.specs.Fitting.{FitsOrder};
ghost use Rattle.witness.specs.inside.Walks.{LeadsTo};
ghost use Rattle.witness.specs.inside.Twins.{IsRunOrder, IsOperand};
ghost use Rattle.witness.specs.Views.{path_of, place_of, witness_of, operator_of};

use crate::search::first_event;
use crate::twins::{Departing, HasLater, Twin};
use crate::walk::{take, walk};
use crate::ways::{InSlice, ToGoal};
use causal_order::Order;
use cut_lattice::Cut;
use pota_base::{EventId, List, NoMemory};
use slice_graph::{Slice, set_words};
use std::alloc::Global;
use witness_kinds::{Path, Witness};

/// The operators whose parts get a witness (EF, AG, EG, and EX of a process by its number).
#[derive(Clone, Copy, Debug, PartialEq, Eq)]
pub enum Explained {
    /// On some path the operand is true at some cut.
    ForEf,
    /// On each path the operand is true at each cut.
    ForAg,
    /// On some path the operand is true at each cut.
    ForEg,
    /// The operand is true at the cut with the next event of the process.
    ExistsNext(u32),
}

// The path from the initial cut to a consistent cut.
fn path_to(alloc: Global, order: &Order, start: Cut, counts: &[u32]) -> Result<Path, NoMemory>
    requires run { IsRunOrder order.now }
    requires start { start ≡ initial order.now }
    requires consistent { IsConsistent order.now counts.now }
    ensures goal { IfOk result (λ path. path.goal ≡ counts.now) }
    ensures steps { IfOk result (λ path. FirstStepsTo order.now (path_of path)) }
{
    let mut goal = Cut::new(alloc, counts.len() as u32)?;
    set_words(counts, &mut goal);
    let way = ToGoal { order, goal: &goal };
    let steps = walk(alloc, &way, start, &goal)?;
    Ok(Path { goal, steps })
}

// EF: the path to the least cut with the operand, if there is one.
fn reach(alloc: Global, order: &Order, operand: &Slice, start: Cut) -> Result<Witness, NoMemory>
    requires operand { IsOperand order.now operand.now }
    requires start { start ≡ initial order.now }
    ensures { IfOk result (λ w.
        IsCanonical order.now (slice_of operand.now) Finally (witness_of w)) }
{
    match operand.bottom() {
        None => Ok(Witness::Nothing),
        Some(bottom) => Ok(Witness::Reach(path_to(alloc, order, start, bottom)?)),
    }
}

// AG: the path to a cut without the operand, if there is one.
fn against(alloc: Global, order: &Order, operand: &Slice, start: Cut) -> Result<Witness, NoMemory>
    requires operand { IsOperand order.now operand.now }
    requires start { start ≡ initial order.now }
    ensures { IfOk result (λ w.
        IsCanonical order.now (slice_of operand.now) Always (witness_of w)) }
{
    if !operand.has(&start) {
        let steps = List::new(alloc);
        return Ok(Witness::Against(Path { goal: start, steps }));
    }
    let departing = Departing {
        order,
        slice: operand,
    };
    match first_event(order, &departing) {
        None => Ok(Witness::Nothing),
        Some(event) => {
            let path = path_to(alloc, order, start, order.clock(event))?;
            Ok(Witness::Against(path))
        }
    }
}

// The path through the slice to the final cut, where no two events have one row.
fn through(alloc: Global, order: &Order, operand: &Slice, start: Cut) -> Result<Witness, NoMemory>
    requires operand { IsOperand order.now operand.now }
    requires start { start ≡ initial order.now }
    requires has { Cuts order.now (slice_of operand.now) (initial order.now) }
    requires leads { LeadsTo (Cuts order.now (slice_of operand.now)) (lengths order.now) }
    ensures { IfOk result (λ w.
        IsCanonical order.now (slice_of operand.now) Globally (witness_of w)) }
{
    let lens = order.shape().lens();
    let mut goal = Cut::new(alloc, lens.len() as u32)?;
    set_words(lens, &mut goal);
    let way = InSlice {
        order,
        slice: operand,
    };
    let steps = walk(alloc, &way, start, &goal)?;
    Ok(Witness::Always(Path { goal, steps }))
}

// The first event that has the row of this one, where there is one.
fn other_twin(order: &Order, operand: &Slice, event: EventId) -> EventId
    requires operand { IsOperand order.now operand.now }
    requires there { IsPlace order.now (place_of event) }
    requires twin { (f : Place) × IsPlace order.now f
        × Shares (slice_of operand.now) (place_of event) f }
    ensures { IsFirst order.now (Shares (slice_of operand.now) (place_of event))
        (place_of result) }
{
    let twin = Twin {
        order,
        slice: operand,
        event,
    };
    match first_event(order, &twin) {
        Some(other) => other,
        None => unreachable!(),
    }
}

// EG: the path through the slice, or what stands against it.
fn always(alloc: Global, order: &Order, operand: &Slice, start: Cut) -> Result<Witness, NoMemory>
    requires operand { IsOperand order.now operand.now }
    requires start { start ≡ initial order.now }
    ensures { IfOk result (λ w.
        IsCanonical order.now (slice_of operand.now) Globally (witness_of w)) }
{
    if !operand.has(&start) {
        return Ok(Witness::StuckStart);
    }
    if !operand.has_final() {
        return Ok(Witness::StuckFinish);
    }
    let later = HasLater {
        order,
        slice: operand,
    };
    match first_event(order, &later) {
        None => through(alloc, order, operand, start),
        Some(event) => {
            let other = other_twin(order, operand, event);
            Ok(Witness::StuckPair(event, other))
        }
    }
}

// Whether the process is there and has an event.
fn has_event(order: &Order, process: u32) -> bool
    ensures { IsTrue result
        ↔ ((process < length order.now) × (0 < count (lengths order.now) process)) }
{
    let shape = order.shape();
    process < shape.procs() && shape.len_of(process) > 0
}

// EX: the one step, if it leads to a cut with the operand.
fn next(
    alloc: Global,
    order: &Order,
    operand: &Slice,
    start: Cut,
    process: u32,
) -> Result<Witness, NoMemory>
    requires operand { IsOperand order.now operand.now }
    requires start { start ≡ initial order.now }
    ensures { IfOk result (λ w.
        IsCanonical order.now (slice_of operand.now) (Next process) (witness_of w)) }
{
    if !has_event(order, process) {
        return Ok(Witness::Nothing);
    }
    let mut goal = start;
    let event = take(&mut goal, process);
    if !operand.has(&goal) {
        return Ok(Witness::Nothing);
    }
    let mut steps = List::new(alloc);
    steps.push(event)?;
    Ok(Witness::Reach(Path { goal, steps }))
}

/// Why EF of an operand is true or false at the initial cut, by the least cut of the operand, which
/// is `None` where there is no such cut.
pub fn reach_to(alloc: Global, order: &Order, least: &Option<Cut>) -> Result<Witness, NoMemory>
    requires { IfSome least.now (IsConsistent order.now) }
    // The witness is the one that is given by each slice of which it is the bottom.
    ensures { (s : SliceOf) → s.bottom ≡ least.now
        → IfOk result (λ w. IsCanonical order.now s Finally (witness_of w)) }
{
    match least {
        None => Ok(Witness::Nothing),
        Some(goal) => {
            let start = Cut::new(alloc, order.shape().procs())?;
            let path = path_to(alloc, order, start, goal.as_slice())?;
            Ok(Witness::Reach(path))
        }
    }
}

/// Why the part that the operator makes of an operand is true or false at the initial cut, by the
/// slice of the operand.
pub fn explain(
    alloc: Global,
    order: &Order,
    operator: Explained,
    operand: &Slice,
) -> Result<Witness, NoMemory>
    requires { FitsOrder order.now operand.now }
    // Where the slice stands for a formula's family, the witness is of its kind.
    ensures kind { (r : Run) → order.now ≡ r.clocks → (f : Formula)
        → IsSublattice r.clocks (Family r f)
        → StandsFor r.clocks (slice_of operand.now) (Family r f)
        → (part : Formula) → IsPartOf r (operator_of operator) f part
        → IfOk result (λ w. IsOfKind r part (witness_of w)) }
    // The witness is the one that is given for the operator by the slice.
    ensures canonical { IfOk result (λ w.
        IsCanonical order.now (slice_of operand.now) (operator_of operator) (witness_of w)) }
{
    let start = Cut::new(alloc, order.shape().procs())?;
    match operator {
        Explained::ForEf => reach(alloc, order, operand, start),
        Explained::ForAg => against(alloc, order, operand, start),
        Explained::ForEg => always(alloc, order, operand, start),
        Explained::ExistsNext(process) => next(alloc, order, operand, start, process),
    }
}
