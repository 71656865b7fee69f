//! The rows of one process, settled in order, each from the one before.
ghost use Rattle.std.specs.Prelude.{◌≡◌, ℕ, ◌+◌, ◌*◌, ◌<◌, ◌≤◌, length, sum, slice_index};
ghost use Rattle.pull_system.specs.Vector.{IsAtMost};
ghost use Rattle.pull_system.specs.Rows.{row_at};
ghost use Rattle.raise_machine.specs.Bounds.{word_at};
ghost use Rattle.bound_table.specs.Views.{KeepsClaims};
ghost use Rattle.bound_table.specs.Firm.{ReachesFirst};
ghost use Rattle.slice_workers.specs.inside.Reaching.{CanSettle, IsReached, MayLendTo};
ghost use Rattle.bound_table.specs.Firm.{row_before};
ghost use Rattle.slice_workers.specs.Calls.{IsPaid};
ghost use Rattle.slice_workers.specs.inside.Settling.{HasOnlyRisen};

use bound_table::{BoundTable, Seat};
use pota_base::{EventId, MOST_PROCESSES, Steps};
use std::sync::ledger::Ledger;

/// Settles the rows of the process in order behind its first ones, which the floor has reached,
/// each from the row before.
pub(crate) fn settle_process<L: Ledger>(
    table: &BoundTable,
    seat: &mut Seat,
    process: u32,
    first: u32,
    bottom: &[u16],
    into: &mut [u16],
    steps: &mut Steps<L>,
)
    requires fits { seat.old.table ≡ table.now }
    requires process { process < length table.now.system.lens }
    requires able { CanSettle table.now.system seat.old.floor bottom.now process first }
    requires into { length into.old ≡ length table.now.system.lens }
    ensures risen { HasOnlyRisen table.now.system seat.old seat.new }
    ensures reaches { let count = slice_index table.now.system.lens process in
        ReachesFirst table.now.system process count seat.new.floor }
{
    let mut before = go_behind(table, seat, process, first, bottom, into);
    let shape = table.system().shape();
    for done in first..shape.len_of(process) {
        let row = shape.row_of(EventId {
            process,
            position: done + 1,
        });
        settle_next(table, seat, process, before, row, into, steps);
        before = row;
    }
}

/// The row of the process's last final event, or the bottom's where there is none, with its least
/// closed vector in `into`.
pub(crate) fn go_behind(
    table: &BoundTable,
    seat: &mut Seat,
    process: u32,
    first: u32,
    bottom: &[u16],
    into: &mut [u16],
) -> u32
    requires fits { seat.old.table ≡ table.now }
    requires process { process < length table.now.system.lens }
    requires able { CanSettle table.now.system seat.old.floor bottom.now process first }
    requires into { length into.old ≡ length table.now.system.lens }
    ensures risen { HasOnlyRisen table.now.system seat.old seat.new }
    ensures row { result ≡ row_before table.now.system.lens process first }
    ensures there { result ≤ sum table.now.system.lens }
    ensures reached { IsReached table.now.system result seat.new.floor into.new }
{
    seat.bounds();
    if first == 0 {
        into.copy_from_slice(bottom);
        return 0;
    }
    let row = table.system().shape().row_of(EventId {
        process,
        position: first,
    });
    table.look_narrow(seat, row, into);
    row
}

/// Settles a row from the row before on its process.
pub(crate) fn settle_next<L: Ledger>(
    table: &BoundTable,
    seat: &mut Seat,
    process: u32,
    before: u32,
    row: u32,
    into: &mut [u16],
    steps: &mut Steps<L>,
)
    requires fits { seat.old.table ≡ table.now }
    requires process { process < length table.now.system.lens }
    requires lends { MayLendTo table.now.system.lens seat.old.floor before row }
    requires reached { IsReached table.now.system before seat.old.floor into.old }
    ensures risen { HasOnlyRisen table.now.system seat.old seat.new }
    ensures reached { IsReached table.now.system row seat.new.floor into.new }
    ensures pays { let pulls = length table.now.system.pulls in
        steps.new + pulls * sum into.old ≤ steps.old + pulls * sum into.new }
    ensures rises_paid { IsPaid table.now.system 1 seat.old seat.new steps.old steps.new }
{
    seat.bounds();
    let mut looked = [0; MOST_PROCESSES];
    let looked = &mut looked[..table.system().shape().procs() as usize];
    look_lent(table, seat, process, row, into, looked);
    table.settle_after(seat, before, row, looked, into, steps);
}

/// Looks at the row, and lends it what other processes' rows have of which the closed vector of the
/// row before knows nothing.
///
/// Where the row's floor names an event that the closed vector has, that event's least row is
/// within it already. So only an event past it can bring anything: where the floor was kept from an
/// earlier batch, or another seat raised the row. A row that was kept and has all of the closed
/// vector is mostly closed itself, so it is lent nothing.
fn look_lent(
    table: &BoundTable,
    seat: &mut Seat,
    own: u32,
    row: u32,
    closed: &[u16],
    looked: &mut [u16],
)
    requires fits { seat.old.table ≡ table.now }
    requires own { own < length table.now.system.lens }
    requires row { row ≤ sum table.now.system.lens }
    requires closed { length closed.now ≡ length table.now.system.lens }
    requires looked { length looked.old ≡ length table.now.system.lens }
    ensures risen { HasOnlyRisen table.now.system seat.old seat.new }
    ensures looked { looked.new ≡ row_at table.now.system.lens seat.new.floor row }
{
    table.look_narrow(seat, row, looked);
    if !may_gain(looked, closed, own) {
        return;
    }
    lend_others(table, seat, own, row, closed, looked);
    table.look_narrow(seat, row, looked);
}

/// Whether the row lacks something of the closed vector, and has a count of another process above
/// it.
fn may_gain(counts: &[u16], closed: &[u16], own: u32) -> bool
    requires size { length counts.now ≡ length closed.now }
    requires own { own < length counts.now }
{
    let (mut lacks, mut past): (u16, u16) = (0, 0);
    for i in 0..counts.len() {
        lacks = lacks.max(closed[i].saturating_sub(counts[i]));
        past = past.wrapping_add(is_past(counts[i], closed[i]));
    }
    lacks > 0 && past > is_past(counts[own as usize], closed[own as usize])
}

/// 1 where the count is above that of the closed vector, and 0 where it is not.
fn is_past(count: u16, closed: u16) -> u16 {
    count.saturating_sub(closed).min(1)
}

/// Lends the row from each other process whose count in it is above that of the closed vector.
fn lend_others(
    table: &BoundTable,
    seat: &mut Seat,
    own: u32,
    row: u32,
    closed: &[u16],
    counts: &[u16],
)
    requires fits { seat.old.table ≡ table.now }
    requires row { row ≤ sum table.now.system.lens }
    requires closed { length closed.now ≡ length table.now.system.lens }
    requires size { length counts.now ≡ length table.now.system.lens }
    requires counts { (i : ℕ) → i < length table.now.system.lens
        → slice_index counts.now i ≤ word_at table.now.system.lens seat.old.floor row i }
    ensures keeps { KeepsClaims seat.old seat.new }
    ensures rises { IsAtMost seat.old.floor seat.new.floor }
{
    for process in 0..table.system().shape().procs() {
        let i = process as usize;
        let count = count_past(counts[i], closed[i], process == own);
        if count > 0 {
            lend_event(table, seat, row, process, count);
        }
    }
}

/// Lends the row that of the process's event of this number, or of its last one where there are
/// fewer.
fn lend_event(table: &BoundTable, seat: &mut Seat, row: u32, process: u32, count: u16)
    requires fits { seat.old.table ≡ table.now }
    requires row { row ≤ sum table.now.system.lens }
    requires process { process < length table.now.system.lens }
    requires count { count ≤ word_at table.now.system.lens seat.old.floor row process }
    ensures keeps { KeepsClaims seat.old seat.new }
    ensures rises { IsAtMost seat.old.floor seat.new.floor }
{
    seat.bounds();
    let shape = table.system().shape();
    let position = shape.len_of(process).min(count as u32);
    if position > 0 {
        let from_row = shape.row_of(EventId { process, position });
        table.lend(seat, from_row, row);
    }
}

/// The count of another process where it is above that of the closed vector, and 0 where it is not.
fn count_past(count: u16, closed: u16, is_own: bool) -> u16
    ensures { result ≤ count }
{
    if is_own || count <= closed { 0 } else { count }
}
