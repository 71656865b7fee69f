//! The slice of a case: that of each part, joined.
ghost use Rattle.std.specs.Prelude.{◌≡◌, ℕ, ◌+◌, ◌≤◌, ◌<◌, ◌^◌, ◌++◌, List as ListOf, length, sum};
ghost use Rattle.std.specs.Prelude.{All, IfOk, IfSome, OnOk};
ghost use Rattle.run_model.specs.Cut.{lengths};
ghost use Rattle.pull_system.specs.declared.pull.Pull.{Pull as PullOf};
ghost use Rattle.pull_system.specs.System.{SystemView, IsSystem};
ghost use Rattle.pull_system.specs.Rows.{AreLeastRows, IsLeast, start_of, row_at};
ghost use Rattle.slice_graph.specs.Fitting.{FitsOrder};
ghost use Rattle.slice_graph.specs.PullLists.{pulls_of_order};

use crate::slice_case::{Operator, Part};
use causal_order::Order;
use graft::join_slices;
use least_cut::least;
use pota_base::{List, NoMemory, Steps};
use pull_fans::System;
use pull_system::{Pull, Rows, all_fit};
use slice_graph::{Slice, order_pulls};
use std::alloc::Global;
use std::sync::ledger::Ledger;
use temporal_slice::{ag, ef, eg};

/// The least closed vector of each row.
fn least_rows<L: Ledger>(
    alloc: Global,
    system: &System,
    steps: &mut Steps<L>,
) -> Result<Rows, NoMemory>
    ensures lens { IfOk result (λ rows. rows.lens ≡ system.now.lens) }
    ensures least { IfOk result (λ rows. AreLeastRows system.now rows.words) }
{
    let shape = system.shape();
    let mut rows = Rows::new(alloc, shape)?;
    for row in 0..shape.events() + 1 {
        settle_row(alloc, system, row, &mut rows, steps)?;
    }
    Ok(rows)
}

/// The words of a row, in 64 bits each.
fn wide_row(alloc: Global, row: &[u16]) -> Result<Vec<u64>, NoMemory>
    ensures items { IfOk result (λ words. words.items ≡ row.now) }
    ensures len { IfOk result (λ words. words.len ≡ length row.now) }
{
    let mut words = Vec::with_capacity(alloc, row.len())?;
    for word in row {
        words.push(*word as u64)?;
    }
    Ok(words)
}

/// Raises a row to its least closed vector.
fn settle_row<L: Ledger>(
    alloc: Global,
    system: &System,
    row: u32,
    rows: &mut Rows,
    steps: &mut Steps<L>,
) -> Result<(), NoMemory>
    requires row { row ≤ sum system.now.lens }
    requires lens { rows.old.lens ≡ system.now.lens }
    requires start { row_at system.now.lens rows.old.words row ≡ start_of system.now.lens row }
    ensures lens { rows.new.lens ≡ system.now.lens }
    ensures least { OnOk result
        (IsLeast system.now row (row_at system.now.lens rows.new.words row)) }
    ensures others { (other : ℕ) → other ≤ sum system.now.lens → (other ≡ row → ⊥)
        → row_at system.now.lens rows.new.words other
        ≡ row_at system.now.lens rows.old.words other }
{
    // By its clause the words are those of rows.
    let _shape = rows.shape();
    let mut vector = wide_row(alloc, rows.row(row))?;
    least(system, &mut vector, steps);
    for process in 0..system.shape().procs() {
        rows.raise(row, process, vector[process as usize]);
    }
    Ok(())
}

/// The order's pulls, and then those of a part.
fn all_pulls(alloc: Global, order: &Order, part: &Part) -> Result<List<Pull>, NoMemory>
    ensures { IfOk result (λ pulls. (rest : ListOf PullOf)
        × (pulls ≡ pulls_of_order order.now ++ rest)) }
{
    let mut pulls = order_pulls(alloc, order)?;
    for pull in &part.pulls {
        let table = List::from_vec(Vec::from_slice(alloc, pull.table.as_slice())?);
        pulls.push(Pull {
            src: pull.src,
            dst: pull.dst,
            table,
        })?;
    }
    Ok(pulls)
}

/// The slice of the part's system, and none where a pull isn't one of the run's shape.
fn slice_of_pulls<L: Ledger>(
    alloc: Global,
    order: &Order,
    part: &Part,
    steps: &mut Steps<L>,
) -> Result<Option<Slice>, NoMemory>
    ensures { IfOk result (λ slice. IfSome slice (FitsOrder order.now)) }
{
    let shape = order.shape();
    let pulls = all_pulls(alloc, order, part)?;
    if !all_fit(pulls.as_slice(), shape) || pulls.len() > 1_000_000 {
        return Ok(None);
    }
    let system = System::new(alloc, shape, pulls)?;
    let rows = least_rows(alloc, &system, steps)?;
    Ok(Some(Slice::from_rows(alloc, order, &rows)?))
}

/// What the operator makes of a slice.
fn applied(
    alloc: Global,
    order: &Order,
    operator: Operator,
    slice: &Slice,
) -> Result<Slice, NoMemory>
    requires { FitsOrder order.now slice.now }
    ensures { IfOk result (FitsOrder order.now) }
{
    match operator {
        Operator::Ef => ef(alloc, order, slice),
        Operator::Ag => ag(alloc, order, slice),
        Operator::Eg => eg(alloc, order, slice),
    }
}

/// What the operators make of a slice, one after the other.
fn all_applied(
    alloc: Global,
    order: &Order,
    operators: &[Operator],
    slice: Slice,
) -> Result<Slice, NoMemory>
    requires { FitsOrder order.now slice }
    ensures { IfOk result (FitsOrder order.now) }
{
    let mut made = slice;
    for operator in operators {
        made = applied(alloc, order, *operator, &made)?;
    }
    Ok(made)
}

/// The joined slice of what is there, if anything is, and of a part's slice.
fn with_part(
    alloc: Global,
    order: &Order,
    before: Option<Slice>,
    slice: Slice,
) -> Result<Slice, NoMemory>
    requires before { IfSome before (FitsOrder order.now) }
    requires slice { FitsOrder order.now slice }
    ensures { IfOk result (FitsOrder order.now) }
{
    // By its clause the clocks are those of an order.
    let _shape = order.shape();
    match before {
        Some(joined) => join_slices(alloc, &joined, &slice),
        None => Ok(slice),
    }
}

/// The slices of the parts, joined. There is none without a part, or where a part's pull isn't one
/// of the run's shape.
pub fn slice_of_parts<L: Ledger>(
    alloc: Global,
    order: &Order,
    parts: &[Part],
    steps: &mut Steps<L>,
) -> Result<Option<Slice>, NoMemory>
    ensures { IfOk result (λ slice. IfSome slice (FitsOrder order.now)) }
{
    let mut joined = None;
    for part in parts {
        let Some(slice) = slice_of_pulls(alloc, order, part, steps)? else {
            return Ok(None);
        };
        let made = all_applied(alloc, order, &part.operators, slice)?;
        joined = Some(with_part(alloc, order, joined, made)?);
    }
    Ok(joined)
}
