//! Slices from the least closed vectors of a system, and from cuts that are at hand.
ghost use Rattle.std.specs.Prelude.{◌≡◌, ℕ, ◌≤◌, ◌↔◌, [], ◌∷◌, ◌++◌, Option, length, sum, get_or};
ghost use Rattle.std.specs.Prelude.{IsTrue, IfOk, OnOk};
ghost use Rattle.std.specs.Bool.{OnTrue};
ghost use Rattle.pota_base.specs.Shape.{IsShape};
ghost use Rattle.run_model.specs.Cut.{Cut as CutOfRun, Clocks, IsWithin, lengths};
ghost use Rattle.run_model.specs.Consistent.{IsConsistent};
ghost use Rattle.run_model.specs.Slice.{StandsFor, Cuts};
ghost use Rattle.pull_system.specs.System.{SystemView, IsSystem, IsClosed};
ghost use Rattle.pull_system.specs.Rows.{AreLeastRows, row_at};
ghost use Rattle.slice_graph.specs.Views.{SliceView, IsRow, no_row, slice_of};
ghost use Rattle.slice_graph.specs.Fitting.{FitsOrder, HasOrder, ClosedCuts, IsCutOfVector};

use crate::cuts::set_words;
use crate::kept_rows::{push_each, push_process};
use crate::slice::Slice;
use crate::table::CutTable;
use causal_order::Order;
use cut_lattice::Cut;
use pota_base::{List, MOST_PROCESSES, NoMemory, Shape};
use pull_system::Rows;
use std::alloc::Global;

impl Slice {
    /// The slice of the consistent cuts that are closed under a system, from the least closed
    /// vectors of its rows. A vector with a component above its length says that there is no such
    /// cut.
    pub fn from_rows(alloc: Global, order: &Order, rows: &Rows) -> Result<Slice, NoMemory>
        requires { rows.now.lens ≡ lengths order.now }
        ensures lens { IfOk result (λ slice. slice.lens ≡ lengths order.now) }
        ensures kept { IfOk result (λ slice. (row : ℕ) → row ≤ sum rows.now.lens
            → IsCutOfVector rows.now.lens (row_at rows.now.lens rows.now.words row)
            (get_or slice.rows row no_row)) }
        ensures stands { IfOk result (λ slice. (system : SystemView)
            → system.lens ≡ lengths order.now
            → HasOrder order.now system → AreLeastRows system rows.now.words
            → StandsFor order.now (slice_of slice) (ClosedCuts order.now system)) }
        ensures fits { IfOk result (λ slice. (system : SystemView) → IsSystem system
            → system.lens ≡ lengths order.now → HasOrder order.now system
            → AreLeastRows system rows.now.words → FitsOrder order.now slice) }
        ensures cuts { IfOk result (λ slice. (system : SystemView) → IsSystem system
            → system.lens ≡ lengths order.now → HasOrder order.now system
            → AreLeastRows system rows.now.words → (c : CutOfRun) → IsConsistent order.now c
            → Cuts order.now (slice_of slice) c ↔ IsClosed system c) }
    {
        // By its clause the clocks are those of an order.
        let _shape = order.shape();
        let shape = rows.shape();
        let procs = shape.procs();
        let mut table = CutTable::new(alloc, shape)?;
        let mut top = [0; MOST_PROCESSES];
        let top = &mut top[..procs as usize];
        push_each(&mut table, rows, 0, 1, top)?;
        for process in 0..procs {
            push_process(&mut table, rows, process, top)?;
        }
        let mut greatest = Cut::new(alloc, procs)?;
        set_words(top, &mut greatest);
        Ok(Slice::with_top(table, greatest))
    }

    /// The slice with this bottom and the cuts of the events in row order. It is for callers that
    /// have each cut by itself.
    pub fn from_cuts(
        alloc: Global,
        shape: &Shape,
        bottom: Option<Cut>,
        rows: List<Option<Cut>>,
    ) -> Result<Slice, NoMemory>
        requires count { length rows ≡ sum shape.now }
        requires bottom { IsRow shape.now bottom }
        requires rows { (row : ℕ) → IsRow shape.now (get_or rows row no_row) }
        ensures { IfOk result (λ slice. slice
            ≡ record { lens = shape.now; rows = bottom ∷ rows }) }
    {
        let mut table = CutTable::new(alloc, shape)?;
        push_row(&mut table, &bottom)?;
        for row in rows.as_slice() {
            push_row(&mut table, row)?;
        }
        Slice::of(alloc, table)
    }
}

/// Puts a row behind the others.
fn push_row(table: &mut CutTable, row: &Option<Cut>) -> Result<(), NoMemory>
    requires { IsRow table.old.lens row.now }
    ensures { OnOk result (table.new
        ≡ record table.old { rows = table.old.rows ++ row.now ∷ [] }) }
{
    match row {
        Some(cut) => table.push_cut(cut.as_slice()),
        None => table.push_none(),
    }
}
