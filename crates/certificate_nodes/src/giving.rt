//! The slice that a node gives.
ghost use Rattle.std.specs.Prelude.{◌≡◌, ◌↔◌, length, IfOk};
ghost use Rattle.run_model.specs.Cut.{Cut, lengths};
ghost use Rattle.run_model.specs.Consistent.{IsConsistent};
ghost use Rattle.run_model.specs.Slice.{Cuts};
ghost use Rattle.slice_graph.specs.Views.{slice_of};
ghost use Rattle.slice_graph.specs.Fitting.{FitsOrder, HasOrder};
ghost use Rattle.part_pulls.specs.Operating.{FitsProcesses};
ghost use Rattle.certificate_table.specs.Begun.{IsWhole};
ghost use Rattle.certificate_nodes.specs.Given.{IsGiven, SlicedBy};

use causal_order::Order;
use certificate_table::CertifiedRows;
use part_pulls::operate;
use pota_base::NoMemory;
use rctl_grammar::Operator;
use slice_graph::Slice;
use std::alloc::Global;

/// The slice that a node with this operator gives, once all its rows are begun and closed.
pub(crate) fn slice_given(
    alloc: Global,
    order: &Order,
    operator: Operator,
    rows: &CertifiedRows,
) -> Result<Slice, NoMemory>
    requires whole { IsWhole rows.now }
    requires lens { rows.now.system.lens ≡ lengths order.now }
    requires order { HasOrder order.now rows.now.system }
    requires operator { FitsProcesses (length (lengths order.now)) operator }
    ensures { IfOk result (IsGiven order.now operator rows.now.system) }
{
    // By its clause the rows are those of a system.
    let _system = rows.system();
    let closed = Slice::from_rows(alloc, order, rows.rows())?;
    let slice = sliced_by(alloc, order, operator, closed)?;
    // By its clause the slice has all its rows.
    let _shape = slice.shape();
    Ok(slice)
}

/// The slice of the cuts at which the operator over the operand is true, and for EX the operand's.
fn sliced_by(
    alloc: Global,
    order: &Order,
    operator: Operator,
    operand: Slice,
) -> Result<Slice, NoMemory>
    requires fits { FitsOrder order.now operand }
    requires operator { FitsProcesses (length (lengths order.now)) operator }
    ensures fits { IfOk result (FitsOrder order.now) }
    ensures cuts { IfOk result (λ slice. (c : Cut) → IsConsistent order.now c
        → Cuts order.now (slice_of slice) c
        ↔ SlicedBy operator order.now (Cuts order.now (slice_of operand)) c) }
{
    match operator {
        Operator::Ex(_) => Ok(operand),
        Operator::Ef | Operator::Ag | Operator::Eg => operate(alloc, order, operator, &operand),
        Operator::Af | Operator::Ax => unreachable!(),
    }
}
