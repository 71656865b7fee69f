//! What the operators over the slice of their operand ask of cuts, and where they are true.
ghost use Rattle.std.specs.Prelude.{◌≡◌, ◌<◌, ◌↔◌, true, IfOk, OnOk, IsTrue, length};
ghost use Rattle.run_model.specs.Cut.{initial};
ghost use Rattle.run_model.specs.Slice.{Cuts};
ghost use Rattle.rctl_grammar.specs.declared.tree.Operator.TheVariants.{Ex};
ghost use Rattle.slice_graph.specs.Views.{slice_of};
ghost use Rattle.slice_graph.specs.Fitting.{FitsOrder};
ghost use Rattle.conjunctions.specs.inside.Beginning.{GatheredFits};
ghost use Rattle.part_pulls.specs.Operating.{Operated, FitsProcesses, operator_gives_order};
ghost use Rattle.conjunctions.specs.inside.Gathering.{AddsOperator};

use crate::gathered::Gathered;
use causal_order::Order;
use part_pulls::{has_first, has_initial, operate};
use pota_base::NoMemory;
use rctl_grammar::Operator;
use slice_graph::Slice;
use std::alloc::Global;
use temporal_slice::ex_fans;

/// Memory of a floor's size. It is never written, so that no page of it is taken.
fn room_for_floor(alloc: Global, order: &Order) -> Result<Vec<u64>, NoMemory> {
    let shape = order.shape();
    let rows = shape.events() as usize + 1;
    Ok(Vec::with_capacity(alloc, rows * shape.procs() as usize)?)
}

/// Gives the memory back, by a call, since compilers leave out memory that is given back where it
/// is taken.
#[inline(never)]
fn give_back(room: Vec<u64>) {
    drop(room);
}

/// Gathers what EF, AG or EG over the operand asks, by its slice, and tells its truth at the
/// initial cut.
// Where the slice does not ask alone, the floor outlives the slice whose rows it is. Room that is
// taken before the slice and given back behind it has the floor lie below the slice, and so the
// table takes the place of the slice. Else that would stay a hole, a tenth of the peak of memory.
fn add_operated(
    alloc: Global,
    order: &Order,
    operator: Operator,
    operand: &Slice,
    gathered: &mut Gathered,
) -> Result<bool, NoMemory>
    requires fits { FitsOrder order.now operand.now }
    requires operator { operator_gives_order operator ≡ true }
    requires floor { GatheredFits order.now gathered.old }
    ensures pulls { OnOk result (AddsOperator order.now operator operand.now gathered.old.pulls
        gathered.new.pulls) }
    ensures floor { OnOk result (GatheredFits order.now gathered.new) }
    ensures order { gathered.new.order ≡ gathered.old.order }
    ensures truth { IfOk result (λ truth. IsTrue truth
        ↔ Operated operator order.now (Cuts order.now (slice_of operand.now))
        (initial order.now)) }
{
    let room = room_for_floor(alloc, order)?;
    let slice = operate(alloc, order, operator, operand)?;
    give_back(room);
    gathered.add_slice(alloc, &slice)?;
    let truth = has_initial(alloc, &slice)?;
    gathered.keep(slice);
    Ok(truth)
}

/// Gathers what EX of the process over the operand asks, and tells its truth at the initial cut.
fn add_next(
    alloc: Global,
    order: &Order,
    process: u32,
    operand: &Slice,
    gathered: &mut Gathered,
) -> Result<bool, NoMemory>
    requires fits { FitsOrder order.now operand.now }
    requires process { process < length order.now }
    requires floor { GatheredFits order.now gathered.old }
    ensures pulls { OnOk result (AddsOperator order.now (Ex process) operand.now gathered.old.pulls
        gathered.new.pulls) }
    ensures floor { OnOk result (GatheredFits order.now gathered.new) }
    ensures order { gathered.new.order ≡ gathered.old.order }
    ensures truth { IfOk result (λ truth. IsTrue truth
        ↔ Operated (Ex process) order.now (Cuts order.now (slice_of operand.now))
        (initial order.now)) }
{
    gathered.add_fans(ex_fans(alloc, order, operand, process)?)?;
    has_first(alloc, operand, process)
}

/// Gathers what the operator over the operand asks, and tells its truth at the initial cut.
pub fn add_operator(
    alloc: Global,
    order: &Order,
    operator: Operator,
    operand: &Slice,
    gathered: &mut Gathered,
) -> Result<bool, NoMemory>
    requires fits { FitsOrder order.now operand.now }
    requires operator { FitsProcesses (length order.now) operator }
    requires floor { GatheredFits order.now gathered.old }
    ensures pulls { OnOk result (AddsOperator order.now operator operand.now gathered.old.pulls
        gathered.new.pulls) }
    ensures floor { OnOk result (GatheredFits order.now gathered.new) }
    ensures order { gathered.new.order ≡ gathered.old.order }
    ensures truth { IfOk result (λ truth. IsTrue truth
        ↔ Operated operator order.now (Cuts order.now (slice_of operand.now))
        (initial order.now)) }
{
    match operator {
        Operator::Ex(process) => add_next(alloc, order, process, operand, gathered),
        _ => add_operated(alloc, order, operator, operand, gathered),
    }
}
