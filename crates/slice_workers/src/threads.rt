//! Workers on threads, each with a seat of its own, and what they hand back.
ghost use Rattle.pota_base.specs.Blanks.{IsBlankOf};
ghost use Rattle.std.specs.Prelude.{◌≡◌, ◌⊎◌, ℕ, ◌<◌, ◌≤◌, All, true, false, length};
ghost use Rattle.std.specs.Prelude.{slice_index_or, IfOk};
ghost use Rattle.pota_base.specs.Limits.{most_processes};
ghost use Rattle.pull_system.specs.Vector.{IsAtMost};
ghost use Rattle.bound_table.specs.Firm.{AreFinal};
ghost use Rattle.slice_workers.specs.inside.Reaching.{AreHanded};
ghost use Rattle.slice_workers.specs.inside.Jobs.{IsJob, IsDone};

use crate::job::{Done, Job};
use crate::workers::{none_handed, settle_claimed};
use bound_table::{BoundTable, Seat};
use pota_base::{Gate, MOST_PROCESSES, NoMemory, Steps};
use std::alloc::Global;
use std::marker::Brand;
use std::sync::ledger::{Blank, Ledger};
use std::thread::{Threads, map_vec};

/// A seat for each worker.
pub(crate) fn make_jobs(
    alloc: Global,
    table: &BoundTable,
    seat: &mut Seat,
    finals: &[u32],
    workers: u32,
) -> Result<Vec<Job>, NoMemory>
    requires fits { seat.old.table ≡ table.now }
    requires finals { AreFinal table.now.system seat.old.floor finals.now }
    ensures same { seat.new ≡ seat.old }
    ensures jobs { IfOk result (λ jobs. All (IsJob table.now finals.now) jobs.items) }
{
    let mut jobs = Vec::with_capacity(alloc, workers as usize)?;
    for before in 0..workers {
        let seat = table.split(seat);
        jobs.push(Job {
            seat,
            worker: before + 1,
        })?;
    }
    Ok(jobs)
}

/// Each worker on a thread, where threads can be made.
pub(crate) fn run<R: Threads + Sync, G: Gate>(
    rt: &R,
    table: &BoundTable,
    finals: &[u32],
    gate: &G,
    jobs: Vec<Job>,
) -> Result<Vec<Done>, NoMemory>
    requires { All (IsJob table.now finals.now) jobs.items }
    ensures { IfOk result (λ dones. All (IsDone table.now) dones.items) }
{
    let settle = |job: Job| -> Done
        requires { IsJob table.now finals.now job }
        ensures { IsDone table.entry.now result }
    { work(table, finals, gate, job) };
    Ok(map_vec(rt, jobs, &settle)?)
}

/// What one worker does, between its calls of the gate.
fn work<G: Gate>(table: &BoundTable, finals: &[u32], gate: &G, job: Job) -> Done
    requires { IsJob table.now finals.now job }
    ensures { IsDone table.now result }
{
    let Job { mut seat, worker } = job;
    gate.enter(worker);
    let mut handed = none_handed();
    work_counted::<Brand>(Blank::new(1), table, &mut seat, finals, &mut handed);
    gate.leave(worker);
    Done { seat, handed }
}

/// Settles what the seat claims, on a counter of its own that nobody reads.
fn work_counted<L: Ledger>(
    blank: Blank,
    table: &BoundTable,
    seat: &mut Seat,
    finals: &[u32],
    handed: &mut [bool; MOST_PROCESSES],
)
    requires blank { IsBlankOf L.name L.parts blank }
    requires fits { seat.old.table ≡ table.now }
    requires finals { AreFinal table.now.system seat.old.floor finals.now }
    requires none { (process : ℕ) → slice_index_or handed.old process false ≡ false }
    ensures table { seat.new.table ≡ seat.old.table }
    ensures handed { AreHanded table.now.system seat.new.floor handed.new }
{
    let procs = table.system().shape().procs() as usize;
    let mut bottom = [0; MOST_PROCESSES];
    let mut into = [0; MOST_PROCESSES];
    let mut steps = Steps::<L>::new(blank);
    settle_claimed(
        table,
        seat,
        finals,
        &mut bottom[..procs],
        &mut into[..procs],
        handed,
        &mut steps,
    );
}

/// Meets the seats that the workers hand back, and marks the processes that they settled.
pub(crate) fn meet_all(
    table: &BoundTable,
    seat: &mut Seat,
    mut dones: Vec<Done>,
    handed: &mut [bool; MOST_PROCESSES],
)
    requires fits { seat.old.table ≡ table.now }
    requires dones { All (IsDone table.now) dones.items }
    requires none { (process : ℕ) → slice_index_or handed.old process false ≡ false }
    ensures table { seat.new.table ≡ seat.old.table }
    ensures rises { IsAtMost seat.old.floor seat.new.floor }
    ensures handed { AreHanded table.now.system seat.new.floor handed.new }
{
    while let Some(done) = dones.pop() {
        meet_one(table, seat, done, handed);
    }
}

/// Meets one seat that a worker hands back.
fn meet_one(table: &BoundTable, seat: &mut Seat, done: Done, handed: &mut [bool; MOST_PROCESSES])
    requires fits { seat.old.table ≡ table.now }
    requires done { IsDone table.now done }
    requires handed { AreHanded table.now.system seat.old.floor handed.old }
    ensures table { seat.new.table ≡ seat.old.table }
    ensures rises { IsAtMost seat.old.floor seat.new.floor }
    ensures handed { AreHanded table.now.system seat.new.floor handed.new }
{
    let Done {
        seat: other,
        handed: more,
    } = done;
    table.meet(seat, other);
    add_handed(handed, &more);
}

/// Marks what is marked in the second as well.
fn add_handed(handed: &mut [bool; MOST_PROCESSES], more: &[bool; MOST_PROCESSES])
    ensures { (process : ℕ) → slice_index_or handed.new process false ≡ true
        → (slice_index_or handed.old process false ≡ true)
        ⊎ (slice_index_or more.now process false ≡ true) }
{
    for process in 0..32 {
        mark_if(handed, process, more[process]);
    }
}

fn mark_if(handed: &mut [bool; MOST_PROCESSES], process: usize, is_marked: bool)
    requires { process < most_processes }
    ensures { (other : ℕ) → slice_index_or handed.new other false ≡ true
        → (slice_index_or handed.old other false ≡ true)
        ⊎ ((other ≡ process) × (is_marked ≡ true)) }
{
    if is_marked {
        handed[process] = true;
    }
}
