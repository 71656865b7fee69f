//! The cuts of a slice that hold a cut.
ghost use Rattle.std.specs.Prelude.{◌≡◌, [], ◌∷◌, ◌++◌, length, option_map, IfOk, OnOk};
ghost use Rattle.std.specs.Option.{option_copied};
ghost use Rattle.pota_base.specs.Shape.{HasEvent};
ghost use Rattle.run_model.specs.Cut.{max_cut, lengths};
ghost use Rattle.run_model.specs.Slice.{Cuts};
ghost use Rattle.run_model.specs.Operators.{raised};
ghost use Rattle.slice_graph.specs.Views.{IsCut, IsRow};
ghost use Rattle.slice_graph.specs.Fitting.{Agrees};
ghost use Rattle.temporal_slice.specs.inside.Operands.{operand, FitsOperand};

use crate::cuts::{before_all, event_behind};
use cut_lattice::Cut;
use pota_base::{EventId, MOST_PROCESSES, NoMemory};
use slice_graph::{CutTable, Order, Slice, join_words, set_words};
use std::alloc::Global;

/// The slice of the cuts that hold the bottom, among those of the child, or among all consistent
/// cuts where there is no child. The final cut is one of them, and so the greatest.
pub fn cuts_from(
    alloc: Global,
    order: &Order,
    child: Option<&Slice>,
    bottom: &Cut,
) -> Result<Slice, NoMemory>
    requires child { FitsOperand order.now (option_copied child) }
    requires bottom { Cuts order.now (operand order.now (option_copied child)) bottom.now }
    requires last { Cuts order.now (operand order.now (option_copied child)) (lengths order.now) }
    ensures { IfOk result (Agrees order.now
        (raised (operand order.now (option_copied child.entry)) bottom.now)) }
{
    let shape = order.shape();
    let mut table = CutTable::new(alloc, shape)?;
    let procs = shape.procs();
    let mut room = [0; MOST_PROCESSES];
    let room = &mut room[..procs as usize];
    let counts = bottom.as_slice();
    table.push_cut(counts)?;
    let mut before = before_all();
    for row in 1..shape.events() + 1 {
        let event = event_behind(shape, before, row);
        let words = row_with(order, child, event);
        push_joined(&mut table, words, counts, room)?;
        before = event;
    }
    let mut last = Cut::new(alloc, procs)?;
    set_words(shape.lens(), &mut last);
    Ok(Slice::with_top(table, last))
}

/// The least cut with the event: of the child, or of all consistent cuts where there is no child.
fn row_with<'a>(order: &'a Order, child: Option<&'a Slice>, event: EventId) -> Option<&'a [u32]>
    requires child { FitsOperand order.now (option_copied child) }
    requires event { HasEvent (lengths order.now) event }
    ensures row { option_copied result
        ≡ (operand order.now (option_copied child.entry)).row event.process event.position }
    ensures within { IsRow (lengths order.now) (option_copied result) }
{
    // By its clause the clocks are those of an order.
    let _shape = order.shape();
    match child {
        Some(slice) => slice.least_with(event),
        None => Some(order.clock(event)),
    }
}

/// Puts the maximum of the bottom and the row behind the other rows, and a row without a cut where
/// there is none.
fn push_joined(
    table: &mut CutTable,
    row: Option<&[u32]>,
    bottom: &[u32],
    room: &mut [u32],
) -> Result<(), NoMemory>
    requires row { IsRow table.old.lens (option_copied row) }
    requires bottom { IsCut table.old.lens bottom.now }
    requires width { length room.old ≡ length table.old.lens }
    ensures width { length room.new ≡ length room.old }
    ensures pushed { OnOk result (table.new ≡ record table.old {
      rows = table.old.rows
          ++ option_map (max_cut bottom.now) (option_copied row.entry) ∷ [];
    }) }
{
    // By its clause the rows of the table are cuts.
    let _shape = table.shape();
    match row {
        Some(words) => {
            room.copy_from_slice(words);
            join_words(bottom, room);
            table.push_cut(room)
        }
        None => table.push_none(),
    }
}
