//! The operators over the slice of their operand, and where they are true at the initial cut.
ghost use Rattle.std.specs.Prelude.{◌≡◌, ◌<◌, ◌↔◌, true, IfOk, IsTrue, length};
ghost use Rattle.run_model.specs.Cut.{Cut, Clocks, initial};
ghost use Rattle.run_model.specs.Consistent.{IsConsistent};
ghost use Rattle.run_model.specs.Slice.{Cuts};
ghost use Rattle.run_model.specs.Witness.{HasFirst};
ghost use Rattle.temporal_slice.specs.PassedOn.{slice_of};
ghost use Rattle.temporal_slice.specs.PassedOn.{FitsOrder};
ghost use Rattle.part_pulls.specs.Operating.{Operated, operator_gives_order};

use cut_lattice::Cut;
use pota_base::NoMemory;
use rctl_grammar::Operator;
use std::alloc::Global;
use temporal_slice::{Slice, ag, ef, eg};
use trace_growth::Order;

/// The slice of the consistent cuts at which EF, AG or EG over the operand is true.
pub fn operate(
    alloc: Global,
    order: &Order,
    operator: Operator,
    operand: &Slice,
) -> Result<Slice, NoMemory>
    requires fits { FitsOrder order.now operand.now }
    requires operator { operator_gives_order operator ≡ true }
    ensures fits { IfOk result (FitsOrder order.now) }
    ensures cuts { IfOk result (λ slice. (c : Cut) → IsConsistent order.now c
        → Cuts order.now (slice_of slice) c
        ↔ Operated operator order.now (Cuts order.now (slice_of operand.now)) c) }
{
    match operator {
        Operator::Ef => ef(alloc, order, operand),
        Operator::Ag => ag(alloc, order, operand),
        Operator::Eg => eg(alloc, order, operand),
        Operator::Ex(_) | Operator::Af | Operator::Ax => unreachable!(),
    }
}

/// Whether the slice has the initial cut.
pub fn has_initial(alloc: Global, slice: &Slice) -> Result<bool, NoMemory>
    ensures { (o : Clocks) → FitsOrder o slice.now → IfOk result
        (λ truth. IsTrue truth ↔ Cuts o (slice_of slice.now) (initial o)) }
{
    let start = Cut::new(alloc, slice.shape().procs())?;
    Ok(slice.has(&start))
}

/// Whether the slice has the cut with the first event of the process alone.
pub fn has_first(alloc: Global, slice: &Slice, process: u32) -> Result<bool, NoMemory>
    requires { process < length slice.now.lens }
    ensures { (o : Clocks) → FitsOrder o slice.now
        → IfOk result (λ truth. IsTrue truth ↔ HasFirst o (slice_of slice.now) process) }
{
    let shape = slice.shape();
    if shape.len_of(process) == 0 {
        return Ok(false);
    }
    let mut first = Cut::new(alloc, shape.procs())?;
    first.set(process, 1);
    Ok(slice.has(&first))
}
