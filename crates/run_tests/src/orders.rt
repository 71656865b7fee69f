ghost use Rattle.std.specs.Prelude.{◌≡◌, length, IfOk};

use causal_order::{ClockTable, Order};
use cut_lattice::Cut;
use pota_base::{NoMemory, Shape};
use std::alloc::Global;
use std::process::Abort;

// An order of two processes to which no events were added.
fn without_events(rt: &impl Abort, alloc: Global) -> Result<Order, NoMemory>
    ensures { IfOk result (λ order. length order ≡ 2) }
{
    let mut order = Order::new(alloc, 2)?;
    let valid: &Shape = order.shape();
    assert!(rt; valid.events() == 0);
    order.extend(&[])?;
    Ok(order)
}

// That the order has no events, and that its cut is consistent.
fn has_one_cut(rt: &impl Abort, order: &Order, cut: &Cut)
    requires { length cut.now ≡ length order.now }
{
    assert!(rt; order.shape().events() == 0);
    assert!(rt; order.is_consistent(cut));
}

// That the order of two processes has no events and one cut.
fn is_without_events(rt: &impl Abort, alloc: Global, order: &Order) -> Result<(), NoMemory>
    requires { length order.now ≡ 2 }
{
    has_one_cut(rt, order, &Cut::new(alloc, 2)?);
    Ok(())
}

#[test]
fn a_run_without_events(rt: HostRuntime) -> Result<(), NoMemory> {
    let order = without_events(&rt, rt.alloc())?;
    is_without_events(&rt, rt.alloc(), &order)
}

// Two clocks of the second process and one of the first.
fn three_clocks(alloc: Global) -> Result<ClockTable, NoMemory>
    ensures { IfOk result (λ table. length table ≡ 2) }
{
    let mut table = ClockTable::new(alloc, 2)?;
    table.push(1, &[0, 1])?;
    table.push(0, &[1, 1])?;
    table.push(1, &[0, 2])?;
    Ok(table)
}

// That the clocks stand by their processes.
fn has_three_clocks(rt: &impl Abort, table: &ClockTable)
    requires { length table.now ≡ 2 }
{
    assert!(rt; table.len_of(0) == 1);
    assert!(rt; table.len_of(1) == 2);
    assert!(rt; table.clock(1, 2) == [0, 2].as_slice());
    assert!(rt; table.clock(0, 1) == [1, 1].as_slice());
}

#[test]
fn clocks_stand_by_their_processes(rt: HostRuntime) -> Result<(), NoMemory> {
    has_three_clocks(&rt, &three_clocks(rt.alloc())?);
    Ok(())
}
