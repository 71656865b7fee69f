//! EF: the consistent cuts within the greatest cut.
ghost use Rattle.std.specs.Prelude.{◌≡◌, ◌↔◌, [], ◌∷◌, ◌++◌, length, IfOk, OnOk};
ghost use Rattle.pota_base.specs.Shape.{HasEvent};
ghost use Rattle.run_model.specs.Cut.{Cut as CutOfRun, lengths};
ghost use Rattle.run_model.specs.Consistent.{IsConsistent};
ghost use Rattle.run_model.specs.Sublattice.{IsSublattice};
ghost use Rattle.run_model.specs.Slice.{Cuts, StandsFor};
ghost use Rattle.run_model.specs.Operators.{EfHolds, whole, lowered};
ghost use Rattle.slice_graph.specs.Views.{slice_of};
ghost use Rattle.slice_graph.specs.Fitting.{FitsOrder, Agrees};

use crate::cuts::{before_all, event_behind};
use cut_lattice::Cut;
use pota_base::{EventId, NoMemory};
use slice_graph::{CutTable, Order, Slice, set_words};
use std::alloc::Global;

/// The slice of the consistent cuts from which some path ends in a cut of the child.
pub fn ef(alloc: Global, order: &Order, child: &Slice) -> Result<Slice, NoMemory>
    requires { FitsOrder order.now child.now }
    ensures stands { IfOk result (λ slice. StandsFor order.now (slice_of slice)
        (λ c. IsConsistent order.now c
        × EfHolds order.now (Cuts order.now (slice_of child.now)) c)) }
    ensures fits { IfOk result (λ slice. FitsOrder order.now slice) }
    ensures closed { IsSublattice order.now (λ c. IsConsistent order.now c
        × EfHolds order.now (Cuts order.now (slice_of child.now)) c) }
    ensures cuts { IfOk result (λ slice. (c : CutOfRun) → IsConsistent order.now c
        → Cuts order.now (slice_of slice) c
        ↔ EfHolds order.now (Cuts order.now (slice_of child.now)) c) }
{
    let shape = order.shape();
    match child.top() {
        Some(top) => cuts_within(alloc, order, top),
        None => Slice::empty(alloc, shape),
    }
}

/// The slice of the consistent cuts within a cut, which is the greatest of them.
fn cuts_within(alloc: Global, order: &Order, top: &[u32]) -> Result<Slice, NoMemory>
    requires { IsConsistent order.now top.now }
    ensures { IfOk result (Agrees order.now (lowered (whole order.now) top.now)) }
{
    let shape = order.shape();
    let mut table = CutTable::new(alloc, shape)?;
    let procs = shape.procs();
    let initial = Cut::new(alloc, procs)?;
    table.push_cut(initial.as_slice())?;
    let mut before = before_all();
    for row in 1..shape.events() + 1 {
        let event = event_behind(shape, before, row);
        push_past(&mut table, order, event, top)?;
        before = event;
    }
    let mut greatest = Cut::new(alloc, procs)?;
    set_words(top, &mut greatest);
    Ok(Slice::with_top(table, greatest))
}

/// Puts the past of the event behind the other rows where the cut has the event, and else a row
/// without a cut.
fn push_past(
    table: &mut CutTable,
    order: &Order,
    event: EventId,
    top: &[u32],
) -> Result<(), NoMemory>
    requires lens { table.old.lens ≡ lengths order.now }
    requires event { HasEvent (lengths order.now) event }
    requires top { length top.now ≡ length order.now }
    ensures { OnOk result (table.new ≡ record table.old {
      rows = table.old.rows
          ++ (lowered (whole order.now) top.now).row event.process event.position ∷ [];
    }) }
{
    // By its clause the clocks are those of an order.
    let _shape = order.shape();
    if event.position <= top[event.process as usize] {
        table.push_cut(order.clock(event))
    } else {
        table.push_none()
    }
}
