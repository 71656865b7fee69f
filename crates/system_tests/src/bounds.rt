ghost use Rattle.pota_base.specs.Blanks.{IsBlankOf};
ghost use Rattle.std.specs.Prelude.{◌≡◌, ◌<◌, ◌≤◌, IfOk, ◌∷◌, []};

use crate::systems::{EMPTY_CHANNEL, Ends, NO_CUT, order_and, table_of};
use bound_table::{BoundTable, Seat};
use pota_base::{NoMemory, Steps};
use std::alloc::Global;
use std::marker::Brand;
use std::process::Abort;
use std::sync::ledger::{Blank, Ledger};
use std::thread::join;

fn empty_table(rt: &impl Abort, alloc: Global) -> Result<(BoundTable, Seat), NoMemory>
    ensures seat { IfOk result (λ pair. pair.1.table ≡ pair.0) }
    ensures lens { IfOk result (λ pair. pair.0.system.lens ≡ 3 ∷ 2 ∷ []) }
{
    table_of(alloc, order_and(rt, alloc, EMPTY_CHANNEL)?)
}

fn settle_row<L: Ledger>(
    rt: &impl Abort,
    blank: Blank,
    table: &BoundTable,
    seat: &mut Seat,
    row: u32,
) -> [u64; 2]
    requires blank { IsBlankOf L.name L.parts blank }
    requires fits { seat.old.table ≡ table.now }
    ensures { seat.new.table ≡ seat.old.table }
{
    assert!(rt; row <= table.system().shape().events());
    assert!(rt; table.system().shape().procs() == 2);
    let mut into = [0; 2];
    table.settle(seat, row, &mut into, &mut Steps::<L>::new(blank));
    into
}

fn settled(rt: &impl Abort, table: &BoundTable, seat: &mut Seat, row: u32) -> [u64; 2]
    requires { seat.old.table ≡ table.now }
    ensures { seat.new.table ≡ seat.old.table }
{
    settle_row::<Brand>(rt, Blank::new(1), table, seat, row)
}

fn looked_at(rt: &impl Abort, table: &BoundTable, seat: &mut Seat, row: u32) -> [u64; 2]
    requires { seat.old.table ≡ table.now }
    ensures { seat.new.table ≡ seat.old.table }
{
    assert!(rt; row <= table.system().shape().events());
    assert!(rt; table.system().shape().procs() == 2);
    let mut into = [0; 2];
    table.look(seat, row, &mut into);
    into
}

/// That the rows settle to these, one after the other.
fn settle(rt: &impl Abort, table: &BoundTable, seat: &mut Seat, expected: &[(u32, [u64; 2])])
    requires { seat.old.table ≡ table.now }
    ensures { seat.new.table ≡ seat.old.table }
{
    'rows: for &(row, settled_to) in expected {
        assert!(rt; settled(rt, table, seat, row) == settled_to);
    }
}

/// That the rows of the order and one more pull settle to these, and that the pulls are given back.
fn settle_with(
    rt: &impl Abort,
    alloc: Global,
    more: Ends,
    expected: &[(u32, [u64; 2])],
) -> Result<(), NoMemory> {
    let (table, mut seat) = table_of(alloc, order_and(rt, alloc, more)?)?;
    settle(rt, &table, &mut seat, expected);
    assert!(rt; table.close(seat).pulls() == 3);
    Ok(())
}

#[test]
fn rows_settle_to_their_least_cuts(rt: HostRuntime) -> Result<(), NoMemory> {
    let expected = [(0, [0, 0]), (1, [1, 1]), (3, [3, 2])];
    settle_with(&rt, rt.alloc(), EMPTY_CHANNEL, &expected)?;
    // without a cut they pass the length
    settle_with(&rt, rt.alloc(), NO_CUT, &[(1, [4, 2]), (4, [4, 2])])
}

/// What a caller reads of rows 0, 1 and 3, which it settles, and of row 2, to which it then lends
/// row 1.
#[derive(Drop)]
struct Caller {
    seat: Seat,
    rows: [[u64; 2]; 4],
}

fn settle_and_lend<L: Ledger>(blank: Blank, table: &BoundTable, mut seat: Seat) -> Caller
    requires blank { IsBlankOf L.name L.parts blank }
    requires fits { seat.table ≡ table.now }
    requires lens { table.now.system.lens ≡ 3 ∷ 2 ∷ [] }
    ensures { result.seat.table ≡ table.now }
{
    let mut steps = Steps::<L>::new(blank);
    let (mut bottom, mut first, mut last, mut lent) = ([0; 2], [0; 2], [0; 2], [0; 2]);
    table.settle(&mut seat, 0, &mut bottom, &mut steps);
    table.settle(&mut seat, 1, &mut first, &mut steps);
    table.settle(&mut seat, 3, &mut last, &mut steps);
    seat.bounds();
    table.lend(&mut seat, 1, 2);
    table.look(&mut seat, 2, &mut lent);
    let rows = [bottom, first, last, lent];
    Caller { seat, rows }
}

fn call(table: &BoundTable, seat: Seat) -> Caller
    requires fits { seat.table ≡ table.now }
    requires lens { table.now.system.lens ≡ 3 ∷ 2 ∷ [] }
    ensures { result.seat.table ≡ table.now }
{
    settle_and_lend::<Brand>(Blank::new(1), table, seat)
}

#[test]
fn two_callers_settle_and_lend_the_same_rows(rt: HostRuntime) -> Result<(), NoMemory> {
    let (table, mut first) = empty_table(&rt, rt.alloc())?;
    let second = table.split(&mut first);
    let (first, second) = join(&rt, || call(&table, first), || call(&table, second));
    assert!(rt; first.rows == [[0, 0], [1, 1], [3, 2], [2, 1]]);
    assert!(rt; second.rows == first.rows);
    let Caller { mut seat, rows: _ } = first;
    table.meet(&mut seat, second.seat);
    assert!(rt; looked_at(&rt, &table, &mut seat, 2) == [2, 1]);
    Ok(())
}

/// That the seat may claim these processes or not, one after the other.
fn claim(rt: &impl Abort, table: &BoundTable, seat: &mut Seat, expected: &[(u32, bool)])
    requires { seat.old.table ≡ table.now }
    ensures { seat.new.table ≡ seat.old.table }
{
    assert!(rt; table.system().shape().procs() == 2);
    'claims: for &(process, free) in expected {
        assert!(rt; process < 2 && table.claim(seat, process) == free);
    }
}

#[test]
fn a_process_is_claimed_by_one_seat(rt: HostRuntime) -> Result<(), NoMemory> {
    let (table, mut first) = empty_table(&rt, rt.alloc())?;
    let mut second = table.split(&mut first);
    claim(&rt, &table, &mut first, &[(0, true)]);
    claim(&rt, &table, &mut second, &[(0, false), (1, true)]);
    Ok(())
}
