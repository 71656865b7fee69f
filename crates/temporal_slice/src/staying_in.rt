//! EG: the cuts of the child that have each event that shares its row with another.
ghost use Rattle.std.specs.Prelude.{◌≡◌, ℕ, ◌≤◌, ◌<◌, ◌↔◌, ◌⊎◌, IsTrue, length, IfOk};
ghost use Rattle.pota_base.specs.Shape.{HasEvent};
ghost use Rattle.run_model.specs.Cut.{Cut as CutOfRun, count, max_cut, lengths};
ghost use Rattle.run_model.specs.Consistent.{IsConsistent};
ghost use Rattle.run_model.specs.Sublattice.{IsSublattice, IsLeast};
ghost use Rattle.run_model.specs.Slice.{Cuts, StandsFor};
ghost use Rattle.run_model.specs.Operators.{EgHolds, HasPairs};
ghost use Rattle.slice_graph.specs.Views.{IsCut, slice_of};
ghost use Rattle.slice_graph.specs.Words.{row_words};
ghost use Rattle.slice_graph.specs.Fitting.{FitsOrder};
ghost use Rattle.temporal_slice.specs.inside.Operands.{IsInRow, Shares};

use crate::cuts::{before_all, event_behind, join_into};
use crate::raised::cuts_from;
use cut_lattice::Cut;
use pota_base::{EventId, NoMemory};
use slice_graph::{Order, Slice, set_words};
use std::alloc::Global;

/// The slice of the consistent cuts from which some path to the final cut stays in the child.
pub fn eg(alloc: Global, order: &Order, child: &Slice) -> Result<Slice, NoMemory>
    requires { FitsOrder order.now child.now }
    ensures stands { IfOk result (λ slice. StandsFor order.now (slice_of slice)
        (λ c. IsConsistent order.now c
        × EgHolds order.now (Cuts order.now (slice_of child.now)) c)) }
    ensures fits { IfOk result (λ slice. FitsOrder order.now slice) }
    ensures closed { IsSublattice order.now (λ c. IsConsistent order.now c
        × EgHolds order.now (Cuts order.now (slice_of child.now)) c) }
    ensures cuts { IfOk result (λ slice. (c : CutOfRun) → IsConsistent order.now c
        → Cuts order.now (slice_of slice) c
        ↔ EgHolds order.now (Cuts order.now (slice_of child.now)) c) }
{
    let shape = order.shape();
    if !child.has_final() {
        return Slice::empty(alloc, shape);
    }
    let bottom = least_with_pairs(alloc, order, child)?;
    cuts_from(alloc, order, Some(child), &bottom)
}

/// The least cut of the child that has each event that shares its row with another.
fn least_with_pairs(alloc: Global, order: &Order, child: &Slice) -> Result<Cut, NoMemory>
    requires fits { FitsOrder order.now child.now }
    requires last { Cuts order.now (slice_of child.now) (lengths order.now) }
    ensures { IfOk result (IsLeast (λ c. Cuts order.now (slice_of child.now) c
        × HasPairs order.now (slice_of child.now) c)) }
{
    // By its clause the clocks are those of an order.
    let _shape = order.shape();
    let shape = child.shape();
    let mut least = Cut::new(alloc, shape.procs())?;
    set_words(child.words(0, 0), &mut least);
    let mut before = before_all();
    for row in 1..shape.events() + 1 {
        let event = event_behind(shape, before, row);
        join_shared(child, event, &mut least);
        before = event;
    }
    Ok(least)
}

/// Makes `into` its maximum with the event's row, where the event shares it with another.
fn join_shared(child: &Slice, event: EventId, into: &mut Cut)
    requires event { HasEvent child.now.lens event }
    requires row { IsCut child.now.lens (row_words child.now event.process event.position) }
    requires width { length into.old ≡ length child.now.lens }
    ensures width { length into.new ≡ length into.old }
    ensures joined { (Shares child.now event.process event.position × (into.new
        ≡ max_cut (row_words child.now event.process event.position) into.old))
        ⊎ ((Shares child.now event.process event.position → ⊥) × (into.new ≡ into.old)) }
{
    // By its clause the slice has all its rows.
    let _shape = child.shape();
    let row = child.words(event.process, event.position);
    if shares_row(child, event, row) {
        join_into(row, into);
    }
}

/// Whether another event has the event's row: the last event of a process in the row, whose own row
/// has the event.
fn shares_row(child: &Slice, event: EventId, row: &[u32]) -> bool
    requires event { HasEvent child.now.lens event }
    requires row { row.now ≡ row_words child.now event.process event.position }
    requires within { IsCut child.now.lens row.now }
    ensures { IsTrue result ↔ Shares child.now event.process event.position }
{
    for process in 0..child.shape().procs() {
        let position = row[process as usize];
        if position > 0 && is_in_row(child, event, EventId { process, position }) {
            return true;
        }
    }
    false
}

/// Whether the row of another event has the event.
fn is_in_row(child: &Slice, event: EventId, other: EventId) -> bool
    requires event { HasEvent child.now.lens event }
    requires other { HasEvent child.now.lens other }
    ensures { IsTrue result ↔ IsInRow child.now event.process event.position other.process
        other.position }
{
    event != other
        && child.words(other.process, other.position)[event.process as usize] >= event.position
}
