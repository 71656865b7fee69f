//! Which processes a worker settles, and what is left to the calling thread.
ghost use Rattle.std.specs.Prelude.{◌≡◌, ℕ, ◌<◌, ◌≤◌, true, false, length, slice_index_or};
ghost use Rattle.pota_base.specs.Limits.{most_processes};
ghost use Rattle.bound_table.specs.Firm.{AreFinal};
ghost use Rattle.slice_workers.specs.inside.Reaching.{AreHanded, HasReachedRows};
ghost use Rattle.slice_workers.specs.inside.Settling.{HasSettled};

use crate::process::settle_process;
use bound_table::{BoundTable, Seat};
use pota_base::{MOST_PROCESSES, Steps};
use std::sync::ledger::Ledger;

/// No process is marked.
pub(crate) fn none_handed() -> [bool; MOST_PROCESSES]
    ensures size { length result ≡ most_processes }
    ensures none { (process : ℕ) → slice_index_or result process false ≡ false }
{
    [false; MOST_PROCESSES]
}

/// Settles the bottom's row into `bottom`, and then the rows of each process that it claims. It
/// marks these processes.
pub(crate) fn settle_claimed<L: Ledger>(
    table: &BoundTable,
    seat: &mut Seat,
    finals: &[u32],
    bottom: &mut [u16],
    into: &mut [u16],
    handed: &mut [bool; MOST_PROCESSES],
    steps: &mut Steps<L>,
)
    requires fits { seat.old.table ≡ table.now }
    requires finals { AreFinal table.now.system seat.old.floor finals.now }
    requires bottom { length bottom.old ≡ length table.now.system.lens }
    requires into { length into.old ≡ length table.now.system.lens }
    requires none { (process : ℕ) → slice_index_or handed.old process false ≡ false }
    ensures table { seat.new.table ≡ seat.old.table }
    ensures handed { AreHanded table.now.system seat.new.floor handed.new }
{
    table.settle_narrow(seat, 0, bottom, steps);
    for process in 0..table.system().shape().procs() {
        claim_one(table, seat, process, finals, bottom, into, handed, steps);
    }
}

/// Settles the rows of each process that is not marked, and marks it.
pub(crate) fn settle_rest<L: Ledger>(
    table: &BoundTable,
    seat: &mut Seat,
    finals: &[u32],
    bottom: &[u16],
    into: &mut [u16],
    handed: &mut [bool; MOST_PROCESSES],
    steps: &mut Steps<L>,
)
    requires fits { seat.old.table ≡ table.now }
    requires into { length into.old ≡ length table.now.system.lens }
    requires reached { HasReachedRows table.now.system seat.old.floor finals.now bottom.now
        handed.old }
    ensures settled { HasSettled table.now.system seat.old seat.new handed.old handed.new }
    ensures all { (process : ℕ) → process < length table.now.system.lens
        → slice_index_or handed.new process false ≡ true }
{
    for process in 0..table.system().shape().procs() {
        settle_left(table, seat, process, finals, bottom, into, handed, steps);
    }
}

/// Settles the rows of the process, and marks it, if it claims it.
fn claim_one<L: Ledger>(
    table: &BoundTable,
    seat: &mut Seat,
    process: u32,
    finals: &[u32],
    bottom: &[u16],
    into: &mut [u16],
    handed: &mut [bool; MOST_PROCESSES],
    steps: &mut Steps<L>,
)
    requires fits { seat.old.table ≡ table.now }
    requires few { length table.now.system.lens ≤ most_processes }
    requires process { process < length table.now.system.lens }
    requires into { length into.old ≡ length table.now.system.lens }
    requires reached { HasReachedRows table.now.system seat.old.floor finals.now bottom.now
        handed.old }
    ensures settled { HasSettled table.now.system seat.old seat.new handed.old handed.new }
{
    if table.claim(seat, process) {
        settle_marked(table, seat, process, finals, bottom, into, handed, steps);
    }
}

/// Settles the rows of the process, and marks it, if it is not marked.
fn settle_left<L: Ledger>(
    table: &BoundTable,
    seat: &mut Seat,
    process: u32,
    finals: &[u32],
    bottom: &[u16],
    into: &mut [u16],
    handed: &mut [bool; MOST_PROCESSES],
    steps: &mut Steps<L>,
)
    requires fits { seat.old.table ≡ table.now }
    requires few { length table.now.system.lens ≤ most_processes }
    requires process { process < length table.now.system.lens }
    requires into { length into.old ≡ length table.now.system.lens }
    requires reached { HasReachedRows table.now.system seat.old.floor finals.now bottom.now
        handed.old }
    ensures settled { HasSettled table.now.system seat.old seat.new handed.old handed.new }
    ensures marked { slice_index_or handed.new process false ≡ true }
{
    if !handed[process as usize] {
        settle_marked(table, seat, process, finals, bottom, into, handed, steps);
    }
}

/// Settles the rows of the process, and marks it.
fn settle_marked<L: Ledger>(
    table: &BoundTable,
    seat: &mut Seat,
    process: u32,
    finals: &[u32],
    bottom: &[u16],
    into: &mut [u16],
    handed: &mut [bool; MOST_PROCESSES],
    steps: &mut Steps<L>,
)
    requires fits { seat.old.table ≡ table.now }
    requires few { length table.now.system.lens ≤ most_processes }
    requires process { process < length table.now.system.lens }
    requires into { length into.old ≡ length table.now.system.lens }
    requires reached { HasReachedRows table.now.system seat.old.floor finals.now bottom.now
        handed.old }
    ensures settled { HasSettled table.now.system seat.old seat.new handed.old handed.new }
    ensures marked { slice_index_or handed.new process false ≡ true }
{
    let first = finals[process as usize];
    settle_process(table, seat, process, first, bottom, into, steps);
    handed[process as usize] = true;
}
