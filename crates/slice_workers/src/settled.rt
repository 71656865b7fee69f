ghost use Rattle.std.specs.Prelude.{◌≡◌, ℕ, ◌≤◌, length, IfOk, OnOk};
ghost use Rattle.pota_base.specs.Limits.{most_workers};
ghost use Rattle.bound_table.specs.Firm.{AreFinal, HasReachedFirm};
ghost use Rattle.slice_workers.specs.inside.Reaching.{AreHanded, ReachesAll};
ghost use Rattle.slice_workers.specs.Calls.{HasRisen, AreSettledRows, TakesLooks, TakesBehind};

use crate::alone::settle_alone;
use crate::threads::{make_jobs, meet_all, run};
use crate::workers::{none_handed, settle_rest};
use bound_table::{BoundTable, Firm, Seat};
use pota_base::{Gate, MOST_PROCESSES, NoMemory, Steps};
use pull_system::Rows;
use std::alloc::Global;
use std::marker::Model;
use std::snapshot::Snapshot;
use std::sync::ledger::Ledger;
use std::thread::Threads;

/// The least closed vectors of all rows of a table. Only `settle_all` makes it.
/// Contracts see its rows, and which of them were firm in the table.
#[derive(Drop)]
pub struct Settled {
    rows: Rows,
    /// Which rows were firm, for contracts alone.
    firm: Snapshot<Firm>,
}

impl Model for Settled {
    ghost use Rattle.slice_workers.specs.Views.{SettledView};

    ghost Value = { SettledView };

    ghost view = { λ settled. record { rows = settled.rows; firm = settled.firm.value } };
}

impl Settled {
    pub fn rows(&self) -> &Rows
        ensures { result.now ≡ self.now.rows }
    {
        &self.rows
    }

    /// The rows alone.
    pub fn into_rows(self) -> Rows
        ensures { result ≡ self.rows }
    {
        let Settled { rows, firm } = self;
        drop(firm);
        rows
    }
}

/// Settles all rows of the table: the seat's floor is then the least closed vector on every row,
/// and these are the rows given.
///
/// Each of the workers, 1 to 16, goes over the processes and settles the rows of those that it
/// claims, between its calls of the gate. The calling thread settles what no worker has handed
/// back. With one worker no thread is made, each row is settled once, and `steps` counts every
/// look-up; with more it counts those of the calling thread. It may wait for the threads that it
/// joins. Where no thread can be made the workers run one after another. After `NoMemory` no floor
/// of the seat has fallen.
///
/// The table's firm rows are left as they are, and contracts see which they were: they are neither
/// lent to nor looked up, and the count of one worker doesn't pay for them. Of several workers each
/// looks up the bottom's.
pub fn settle_all<R: Threads + Sync, G: Gate, L: Ledger>(
    rt: &R,
    alloc: Global,
    table: &BoundTable,
    seat: &mut Seat,
    workers: u32,
    gate: &G,
    steps: &mut Steps<L>,
) -> Result<Settled, NoMemory>
    requires fits { seat.old.table ≡ table.now }
    requires some { 1 ≤ workers }
    requires few { workers ≤ most_workers }
    ensures risen { HasRisen seat.old seat.new }
    ensures settled { IfOk result (λ settled.
        AreSettledRows table.now.system seat.new.floor settled.rows) }
    ensures firm { IfOk result (λ settled. settled.firm ≡ table.now.firm) }
    ensures takes { workers ≡ 1 → TakesLooks table.now.system table.now.system.lens
        seat.old seat.new steps.old steps.new }
    ensures behind { workers ≡ 1 → TakesBehind table.now.system table.now.firm seat.old seat.new
        steps.old steps.new }
{
    let firm = table.firm_rows(seat);
    if workers == 1 {
        let kept = settle_alone(alloc, table, seat, firm, gate, steps)?;
        return Ok(Settled {
            rows: kept,
            firm: Snapshot::of(firm),
        });
    }
    let firsts = firm.firsts();
    settle_rows(rt, alloc, table, seat, firsts, workers, gate, steps)?;
    seat.bounds();
    let rows = table.floors(alloc, seat)?;
    Ok(Settled {
        rows,
        firm: Snapshot::of(firm),
    })
}

/// Raises the seat's floor to the least closed vector on every row, by workers on threads.
fn settle_rows<R: Threads + Sync, G: Gate, L: Ledger>(
    rt: &R,
    alloc: Global,
    table: &BoundTable,
    seat: &mut Seat,
    finals: &[u32],
    workers: u32,
    gate: &G,
    steps: &mut Steps<L>,
) -> Result<(), NoMemory>
    requires fits { seat.old.table ≡ table.now }
    requires finals { AreFinal table.now.system seat.old.floor finals.now }
    ensures risen { HasRisen seat.old seat.new }
    ensures reaches { OnOk result (ReachesAll table.now.system seat.new.floor) }
{
    let jobs = make_jobs(alloc, table, seat, finals, workers)?;
    let dones = run(rt, table, finals, gate, jobs)?;
    let mut handed = none_handed();
    meet_all(table, seat, dones, &mut handed);
    finish(table, seat, finals, &mut handed, steps);
    Ok(())
}

/// Settles what no worker has handed back.
fn finish<L: Ledger>(
    table: &BoundTable,
    seat: &mut Seat,
    finals: &[u32],
    handed: &mut [bool; MOST_PROCESSES],
    steps: &mut Steps<L>,
)
    requires fits { seat.old.table ≡ table.now }
    requires finals { AreFinal table.now.system seat.old.floor finals.now }
    requires handed { AreHanded table.now.system seat.old.floor handed.old }
    ensures risen { HasRisen seat.old seat.new }
    ensures reaches { ReachesAll table.now.system seat.new.floor }
{
    let procs = table.system().shape().procs() as usize;
    let mut bottom = [0; MOST_PROCESSES];
    let mut into = [0; MOST_PROCESSES];
    let (bottom, into) = (&mut bottom[..procs], &mut into[..procs]);
    finish_here(table, seat, finals, bottom, into, handed, steps);
}

/// Settles what no worker has handed back, with the room that it needs. The bottom's row is looked
/// up once more.
fn finish_here<L: Ledger>(
    table: &BoundTable,
    seat: &mut Seat,
    finals: &[u32],
    bottom: &mut [u16],
    into: &mut [u16],
    handed: &mut [bool; MOST_PROCESSES],
    steps: &mut Steps<L>,
)
    requires fits { seat.old.table ≡ table.now }
    requires finals { AreFinal table.now.system seat.old.floor finals.now }
    requires bottom { length bottom.old ≡ length table.now.system.lens }
    requires into { length into.old ≡ length table.now.system.lens }
    requires handed { AreHanded table.now.system seat.old.floor handed.old }
    ensures risen { HasRisen seat.old seat.new }
    ensures reaches { ReachesAll table.now.system seat.new.floor }
{
    table.settle_narrow(seat, 0, bottom, steps);
    settle_rest(table, seat, finals, bottom, into, handed, steps);
}
