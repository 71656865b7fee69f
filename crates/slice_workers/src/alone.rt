//! The rows of one worker, settled on the calling thread in row order. Each is kept as it is
//! settled, so that no word of the table is read again.
ghost use Rattle.std.specs.Prelude.{◌≡◌, ℕ, ◌+◌, ◌-◌, ◌<◌, ◌≤◌, true, [], length, sum, take};
ghost use Rattle.std.specs.Prelude.{slice_index, IfOk, OnOk};
ghost use Rattle.pull_system.specs.Rows.{IsLeast};
ghost use Rattle.bound_table.specs.Kept.{Follows};
ghost use Rattle.bound_table.specs.Views.{KeepsClaims};
ghost use Rattle.bound_table.specs.Firm.{HasReachedFirm, Reaches, ReachesFirst};
ghost use Rattle.slice_workers.specs.Spent.{spent_of};
ghost use Rattle.slice_workers.specs.inside.Reaching.{CanSettle};
ghost use Rattle.slice_workers.specs.Calls.{HasRisen, AreSettledRows, TakesBehind, IsPaid};
ghost use Rattle.slice_workers.specs.Calls.{process_looks};
ghost use Rattle.slice_workers.specs.inside.Settling.{HasOnlyRisen};
ghost use Rattle.slice_workers.specs.inside.Keeping.{AreKept, KeepsUpTo, TakesBottom, TakesRows};
ghost use Rattle.slice_workers.specs.inside.Keeping.{last_row_of};

use crate::process::{go_behind, settle_next};
use bound_table::{BoundTable, Firm, Seat};
use pota_base::{EventId, Gate, MOST_PROCESSES, NoMemory, Steps};
use pull_system::Rows;
use std::alloc::Global;
use std::sync::ledger::Ledger;

/// Settles all rows between two calls of the gate, and gives them.
pub(crate) fn settle_alone<G: Gate, L: Ledger>(
    alloc: Global,
    table: &BoundTable,
    seat: &mut Seat,
    firm: &Firm,
    gate: &G,
    steps: &mut Steps<L>,
) -> Result<Rows, NoMemory>
    requires fits { seat.old.table ≡ table.now }
    requires firm { HasReachedFirm table.now.system seat.old.floor firm.now }
    ensures risen { HasRisen seat.old seat.new }
    ensures settled { IfOk result (AreSettledRows table.now.system seat.new.floor) }
    ensures takes { TakesBehind table.now.system firm.now seat.old seat.new steps.old steps.new }
{
    let shape = table.system().shape();
    let procs = shape.procs() as usize;
    let mut bottom = [0; MOST_PROCESSES];
    let mut into = [0; MOST_PROCESSES];
    let (bottom, into) = (&mut bottom[..procs], &mut into[..procs]);
    let mut words = Vec::with_capacity(alloc, (shape.events() as usize + 1) * procs)?;
    gate.enter(1);
    let done = settle_in_order(table, seat, firm, bottom, into, &mut words, steps);
    gate.leave(1);
    done?;
    seat.bounds();
    Rows::from_words(alloc, shape, words)
}

/// Settles the bottom's row into `bottom`, and then the rows of each process, and appends them.
fn settle_in_order<L: Ledger>(
    table: &BoundTable,
    seat: &mut Seat,
    firm: &Firm,
    bottom: &mut [u16],
    into: &mut [u16],
    words: &mut Vec<u16>,
    steps: &mut Steps<L>,
) -> Result<(), NoMemory>
    requires fits { seat.old.table ≡ table.now }
    requires firm { HasReachedFirm table.now.system seat.old.floor firm.now }
    requires bottom { length bottom.old ≡ length table.now.system.lens }
    requires into { length into.old ≡ length table.now.system.lens }
    requires words { words.old.items ≡ [] }
    ensures risen { HasRisen seat.old seat.new }
    ensures kept { OnOk result (AreKept table.now.system seat.new.floor
        (sum table.now.system.lens + 1) words.new.items) }
    ensures takes { TakesBehind table.now.system firm.now seat.old seat.new steps.old steps.new }
{
    seat.bounds();
    let procs = table.system().shape().procs();
    let firsts = firm.firsts();
    settle_bottom(table, seat, firm.has_bottom(), bottom, steps);
    words.extend_from_slice(bottom)?;
    for process in 0..procs {
        // Another seat may claim it too: its rows are settled all the same.
        table.claim(seat, process);
        let first = firsts[process as usize];
        keep_process(table, seat, process, first, bottom, into, words, steps)?;
    }
    Ok(())
}

/// Settles the bottom's row into `bottom`. Where it is firm it is only looked at.
fn settle_bottom<L: Ledger>(
    table: &BoundTable,
    seat: &mut Seat,
    is_firm: bool,
    bottom: &mut [u16],
    steps: &mut Steps<L>,
)
    requires fits { seat.old.table ≡ table.now }
    requires reached { is_firm ≡ true → Reaches table.now.system 0 seat.old.floor }
    requires bottom { length bottom.old ≡ length table.now.system.lens }
    ensures keeps { KeepsClaims seat.old seat.new }
    ensures follows { Follows table.now.system 0 seat.old.floor seat.new.floor bottom.new }
    ensures least { IsLeast table.now.system 0 bottom.new }
    ensures takes { TakesBottom table.now.system is_firm seat.old.floor bottom.new steps.old
        steps.new }
{
    seat.bounds();
    if is_firm {
        table.look_narrow(seat, 0, bottom);
        return;
    }
    table.settle_narrow(seat, 0, bottom, steps);
}

/// Appends the rows of the process, of which it settles those behind the first ones.
fn keep_process<L: Ledger>(
    table: &BoundTable,
    seat: &mut Seat,
    process: u32,
    first: u32,
    bottom: &[u16],
    into: &mut [u16],
    words: &mut Vec<u16>,
    steps: &mut Steps<L>,
) -> Result<(), NoMemory>
    requires fits { seat.old.table ≡ table.now }
    requires process { process < length table.now.system.lens }
    requires able { CanSettle table.now.system seat.old.floor bottom.now process first }
    requires into { length into.old ≡ length table.now.system.lens }
    requires kept { AreKept table.now.system seat.old.floor
        (sum (take process table.now.system.lens) + (0 + 1)) words.old.items }
    ensures risen { HasOnlyRisen table.now.system seat.old seat.new }
    ensures kept { let count = slice_index table.now.system.lens process + 1 in
        OnOk result (AreKept table.now.system seat.new.floor
        (sum (take process table.now.system.lens) + count) words.new.items) }
    ensures takes { let rows = slice_index table.now.system.lens process - first in
        TakesRows table.now.system bottom.now rows seat.old seat.new
        (spent_of steps.old steps.new) }
{
    seat.bounds();
    let before = keep_firsts(table, seat, process, first, bottom, into, words)?;
    keep_others(table, seat, process, first, before, into, words, steps)
}

/// Appends the first rows of the process, which are firm, after a look at their words. It gives
/// the last of them, or the bottom's where there is none, with its vector in `into`.
fn keep_firsts(
    table: &BoundTable,
    seat: &mut Seat,
    process: u32,
    first: u32,
    bottom: &[u16],
    into: &mut [u16],
    words: &mut Vec<u16>,
) -> Result<u32, NoMemory>
    requires fits { seat.old.table ≡ table.now }
    requires process { process < length table.now.system.lens }
    requires able { CanSettle table.now.system seat.old.floor bottom.now process first }
    requires into { length into.old ≡ length table.now.system.lens }
    requires kept { AreKept table.now.system seat.old.floor
        (sum (take process table.now.system.lens) + (0 + 1)) words.old.items }
    ensures risen { HasOnlyRisen table.now.system seat.old seat.new }
    ensures kept { IfOk result (λ before. KeepsUpTo table.now.system process first seat.new.floor
        (last_row_of before into.new) words.new.items) }
{
    push_firsts(table, seat, process, first, words)?;
    Ok(go_behind(table, seat, process, first, bottom, into))
}

/// Appends the first rows of the process, which are firm, many words at once.
fn push_firsts(
    table: &BoundTable,
    seat: &mut Seat,
    process: u32,
    first: u32,
    words: &mut Vec<u16>,
) -> Result<(), NoMemory>
    requires fits { seat.old.table ≡ table.now }
    requires process { process < length table.now.system.lens }
    requires few { first ≤ slice_index table.now.system.lens process }
    requires reached { ReachesFirst table.now.system process first seat.old.floor }
    requires kept { AreKept table.now.system seat.old.floor
        (sum (take process table.now.system.lens) + (0 + 1)) words.old.items }
    ensures risen { HasOnlyRisen table.now.system seat.old seat.new }
    ensures kept { OnOk result (AreKept table.now.system seat.new.floor
        (sum (take process table.now.system.lens) + (first + 1)) words.new.items) }
{
    seat.bounds();
    if first == 0 {
        return Ok(());
    }
    let row = table.system().shape().row_of(EventId {
        process,
        position: 1,
    });
    table.push_rows(seat, row, first, words)
}

/// Settles the rows of the process in order behind its first ones, each from the row before, and
/// appends them.
fn keep_others<L: Ledger>(
    table: &BoundTable,
    seat: &mut Seat,
    process: u32,
    first: u32,
    mut before: u32,
    into: &mut [u16],
    words: &mut Vec<u16>,
    steps: &mut Steps<L>,
) -> Result<(), NoMemory>
    requires fits { seat.old.table ≡ table.now }
    requires process { process < length table.now.system.lens }
    requires first { first ≤ slice_index table.now.system.lens process }
    requires kept { KeepsUpTo table.now.system process first seat.old.floor
        (last_row_of before into.old)
        words.old.items }
    ensures risen { HasOnlyRisen table.now.system seat.old seat.new }
    ensures kept { let count = slice_index table.now.system.lens process + 1 in
        OnOk result (AreKept table.now.system seat.new.floor
        (sum (take process table.now.system.lens) + count) words.new.items) }
    ensures looks { steps.new ≤ steps.old + process_looks table.now.system into.old }
    ensures rises_paid { let rows = slice_index table.now.system.lens process - first in
        IsPaid table.now.system rows seat.old seat.new steps.old steps.new }
{
    seat.bounds();
    let shape = table.system().shape();
    for done in first..shape.len_of(process) {
        let row = shape.row_of(EventId {
            process,
            position: done + 1,
        });
        settle_next(table, seat, process, before, row, into, steps);
        words.extend_from_slice(into)?;
        before = row;
    }
    Ok(())
}
