//! Joining two slices, row by row.
ghost use Rattle.std.specs.Prelude.{◌≡◌, ◌≤◌, [], ◌∷◌, ◌++◌, length, IfOk, OnOk};
ghost use Rattle.std.specs.Option.{option_copied};
ghost use Rattle.run_model.specs.Cut.{Clocks, min_cut};
ghost use Rattle.run_model.specs.Consistent.{IsOrder};
ghost use Rattle.run_model.specs.Sublattice.{Smallest, Either};
ghost use Rattle.run_model.specs.Slice.{Cuts, StandsFor};
ghost use Rattle.run_model.specs.Operators.{min_row};
ghost use Rattle.pota_base.specs.Limits.{most_processes};
ghost use Rattle.slice_graph.specs.Views.{IsRow, slice_of};
ghost use Rattle.slice_graph.specs.Fitting.{FitsOrder};
ghost use Rattle.graft.specs.Joined.{joined_views};

use cut_lattice::Cut;
use pota_base::NoMemory;
use slice_graph::{CutTable, Slice};
use std::alloc::Global;

/// The slice of the smallest sublattice round the cuts of both: its bottom and its rows are the
/// minima of theirs, where a missing cut counts as above all. The slices have one shape.
pub fn join_slices(alloc: Global, left: &Slice, right: &Slice) -> Result<Slice, NoMemory>
    requires { left.now.lens ≡ right.now.lens }
    ensures rows { IfOk result (λ slice. slice ≡ joined_views left.now right.now) }
    ensures stands { (o : Clocks) → FitsOrder o left.now → FitsOrder o right.now
        → IfOk result (λ slice. StandsFor o (slice_of slice)
        (Smallest (Either (Cuts o (slice_of left.now)) (Cuts o (slice_of right.now))))) }
    ensures fits { (o : Clocks) → IsOrder o → FitsOrder o left.now → FitsOrder o right.now
        → IfOk result (FitsOrder o) }
{
    // By its clause the right slice has all its rows.
    let _shape = right.shape();
    let shape = left.shape();
    let mut table = CutTable::new(alloc, shape)?;
    let mut cut = Cut::new(alloc, shape.procs())?;
    for row in 0..shape.events() + 1 {
        push_minimum(&mut table, left.row(row), right.row(row), &mut cut)?;
    }
    Slice::of(alloc, table)
}

/// Puts the minimum of two rows behind the other rows.
fn push_minimum(
    table: &mut CutTable,
    left: Option<&[u32]>,
    right: Option<&[u32]>,
    cut: &mut Cut,
) -> Result<(), NoMemory>
    requires left { IsRow table.old.lens (option_copied left) }
    requires right { IsRow table.old.lens (option_copied right) }
    requires width { length cut.old ≡ length table.old.lens }
    ensures width { length cut.new ≡ length cut.old }
    ensures pushed { OnOk result (table.new ≡ record table.old {
      rows = table.old.rows
          ++ min_row (option_copied left.entry) (option_copied right.entry) ∷ [];
    }) }
{
    // By its clause the rows of the table are cuts.
    let _shape = table.shape();
    match (left, right) {
        (Some(left), Some(right)) => {
            set_minimum(left, right, cut);
            table.push_cut(cut.as_slice())
        }
        (Some(only), None) | (None, Some(only)) => table.push_cut(only),
        (None, None) => table.push_none(),
    }
}

/// Gives `into` the componentwise minimum of two cuts.
fn set_minimum(left: &[u32], right: &[u32], into: &mut Cut)
    requires few { length left.now ≤ most_processes }
    requires right { length right.now ≡ length left.now }
    requires width { length into.old ≡ length left.now }
    ensures { into.new ≡ min_cut left.now right.now }
{
    for process in 0..left.len() {
        into.set(process as u32, left[process].min(right[process]));
    }
}
