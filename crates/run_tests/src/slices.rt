ghost use Rattle.pota_base.specs.Blanks.{IsBlankOf};
ghost use Rattle.std.specs.Prelude.{◌≡◌, ◌<◌, length, IfOk};

use causal_order::Order;
use event_log::{Event, Kind};
use pota_base::{List, NoMemory, Shape, Steps};
use pull_fans::{System, pulls_of};
use pull_system::{Floor, Pull};
use slice_graph::{CutTable, Slice, order_fans, order_rows, order_rows_above};
use std::alloc::Global;
use std::marker::Brand;
use std::process::Abort;
use std::sync::ledger::{Blank, Ledger};

// A row without a cut, and one with all events of two processes.
fn two_rows(alloc: Global) -> Result<CutTable, NoMemory> {
    let shape = Shape::new(alloc, &[2, 1])?;
    let mut table = CutTable::new(alloc, &shape)?;
    table.push_none()?;
    table.push_cut(&[2, 1])?;
    Ok(table)
}

// That the row without a cut has words past the ends.
fn has_two_rows(rt: &impl Abort, table: &CutTable) {
    assert!(rt; table.len() == 2);
    assert!(rt; table.cut(0).is_none());
    assert!(rt; table.words(0) == [3, 2].as_slice());
    assert!(rt; table.words(1) == [2, 1].as_slice());
}

#[test]
fn rows_with_and_without_cuts(rt: HostRuntime) -> Result<(), NoMemory> {
    has_two_rows(&rt, &two_rows(rt.alloc())?);
    Ok(())
}

/// A slice without the second event of the first process, whose first event comes before that of
/// the second.
fn three_cuts(alloc: Global) -> Result<Slice, NoMemory> {
    let shape = Shape::new(alloc, &[2, 1])?;
    let mut table = CutTable::new(alloc, &shape)?;
    table.push_cut(&[0, 0])?;
    table.push_cut(&[1, 0])?;
    table.push_none()?;
    table.push_cut(&[1, 1])?;
    Slice::of(alloc, table)
}

// Whether the rows from which the table of that slice begins have these words.
fn begins_from(alloc: Global, words: &[u64]) -> Result<bool, NoMemory> {
    let slice = three_cuts(alloc)?;
    let rows = slice.rows(alloc)?;
    Ok(rows.as_words() == words)
}

fn event(alloc: Global, process: u32, line: u32, clock: &[u32]) -> Result<Event, NoMemory>
    ensures { IfOk result (λ event. (event.process ≡ process) × (event.clock ≡ clock.now)) }
{
    Ok(Event {
        process,
        line,
        clock: List::from_vec(Vec::from_slice(alloc, clock)?),
        kind: Kind::Internal,
        assigns: List::new(alloc),
    })
}

/// Two processes, with two events and one; the one comes after the first of the two.
fn three_events(alloc: Global) -> Result<Order, NoMemory>
    ensures { IfOk result (λ order. length order ≡ 2) }
{
    let mut order = Order::new(alloc, 2)?;
    let first = event(alloc, 0, 3, &[1, 0])?;
    let second = event(alloc, 0, 4, &[2, 0])?;
    let other = event(alloc, 1, 5, &[1, 1])?;
    order.extend(&[first, second, other])?;
    Ok(order)
}

// Whether the rows from which the table of that order begins have these words.
fn order_begins_from(alloc: Global, words: &[u64]) -> Result<bool, NoMemory> {
    let order = three_events(alloc)?;
    let rows = order_rows(alloc, &order)?;
    Ok(rows.as_words() == words)
}

/// The rows above a least cut without an event of process 0 and with one of process 1, where there
/// are two processes.
fn rows_above(alloc: Global, order: &Order) -> Result<Option<Floor>, NoMemory> {
    if order.shape().procs() != 2 {
        return Ok(None);
    }
    Ok(Some(order_rows_above(alloc, order, &[0, 1])?))
}

// Whether those rows of the three events have these words.
fn begins_above(alloc: Global, words: &[u64]) -> Result<bool, NoMemory> {
    let order = three_events(alloc)?;
    match rows_above(alloc, &order)? {
        Some(rows) => Ok(rows.as_words() == words),
        None => Ok(false),
    }
}

#[test]
fn tables_begin_from_slices_clocks_and_least_cuts(rt: HostRuntime) -> Result<(), NoMemory> {
    let of_slice = begins_from(rt.alloc(), &[0, 0, 1, 0, 3, 2, 1, 1])?;
    assert!(rt; of_slice);
    let of_clocks = order_begins_from(rt.alloc(), &[0, 0, 1, 0, 2, 0, 1, 1])?;
    assert!(rt; of_clocks);
    let above = begins_above(rt.alloc(), &[0, 1, 1, 1, 2, 1, 1, 1])?;
    assert!(rt; above);
    Ok(())
}

fn table_at(pulls: &[Pull], index: usize) -> &[u32] {
    match pulls.get(index) {
        Some(pull) => pull.table.as_slice(),
        None => &[],
    }
}

// That the pulls at these places have these tables.
fn have_tables(rt: &impl Abort, pulls: &[Pull], tables: &[(usize, &[u32])]) {
    for &(index, table) in tables {
        assert!(rt; table_at(pulls, index) == table);
    }
}

// The pulls of the slice of three cuts.
fn slice_pulls(alloc: Global) -> Result<List<Pull>, NoMemory> {
    let slice = three_cuts(alloc)?;
    slice.pulls(alloc)
}

#[test]
fn each_process_of_a_slice_pulls_each(rt: HostRuntime) -> Result<(), NoMemory> {
    let pulls = slice_pulls(rt.alloc())?;
    assert!(rt; pulls.len() == 4);
    have_tables(
        &rt,
        pulls.as_slice(),
        &[
            (0, &[0, 1, 3, 3]),
            (1, &[0, 0, 2, 2]),
            (2, &[0, 1, 3]),
            (3, &[0, 1, 2]),
        ],
    );
    Ok(())
}

// The pulls of the order of three events, in so many fans.
fn order_pulls(alloc: Global) -> Result<(usize, List<Pull>), NoMemory> {
    let order = three_events(alloc)?;
    let fans = order_fans(alloc, &order)?;
    let pulls = pulls_of(alloc, fans.as_slice())?;
    Ok((fans.len(), pulls))
}

#[test]
fn each_process_of_an_order_pulls_the_others(rt: HostRuntime) -> Result<(), NoMemory> {
    let (fans, pulls) = order_pulls(rt.alloc())?;
    assert!(rt; fans == 2);
    assert!(rt; pulls.len() == 2);
    have_tables(
        &rt,
        pulls.as_slice(),
        &[(0, &[0, 0, 0, 0]), (1, &[0, 1, 1])],
    );
    Ok(())
}

fn system_of(alloc: Global, order: &Order) -> Result<System, NoMemory> {
    let fans = order_fans(alloc, order)?;
    System::of_fans(alloc, order.shape(), fans)
}

fn closed_at<L: Ledger>(rt: &impl Abort, blank: Blank, system: &System, vector: &[u64]) -> bool
    requires blank { IsBlankOf L.name L.parts blank }
{
    assert!(rt; system.fits(vector));
    system.is_closed(vector, &mut Steps::<L>::new(blank))
}

// That these vectors are closed or not.
fn close(rt: &impl Abort, system: &System, expected: &[([u64; 2], bool)]) {
    for (vector, closed) in expected {
        assert!(rt; closed_at::<Brand>(rt, Blank::new(1), system, vector) == *closed);
    }
}

// The system of the order of three events.
fn system_of_three(alloc: Global) -> Result<System, NoMemory> {
    let order = three_events(alloc)?;
    system_of(alloc, &order)
}

#[test]
fn the_cuts_of_an_order_are_closed_under_its_fans(rt: HostRuntime) -> Result<(), NoMemory> {
    let system = system_of_three(rt.alloc())?;
    close(
        &rt,
        &system,
        &[
            ([0, 0], true),
            ([2, 0], true),
            ([0, 1], false),
            ([1, 1], true),
        ],
    );
    Ok(())
}
