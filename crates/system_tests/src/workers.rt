ghost use Rattle.pota_base.specs.Blanks.{IsBlankOf};
ghost use Rattle.std.specs.Prelude.{◌<◌, ◌≤◌};
ghost use Rattle.pota_base.specs.Limits.{most_workers};

use crate::fans::{Asked, system};
use crate::systems::{EMPTY_CHANNEL, order_and, table_of};
use pota_base::{FreeGate, Gate, NoMemory, Steps};
use pull_fans::System;
use slice_workers::{Settled, settle_all};
use std::alloc::Global;
use std::marker::Brand;
use std::process::Abort;
use std::sync::atomic::{AtomicBool, Ordering};
use std::sync::ledger::{Blank, Ledger};
use std::thread::{Threads, yield_now};

fn settle_counted<R: Threads + Sync, G: Gate, L: Ledger>(
    rt: &R,
    alloc: Global,
    blank: Blank,
    system: System,
    workers: u32,
    gate: &G,
) -> Result<Settled, NoMemory>
    requires blank { IsBlankOf L.name L.parts blank }
    requires some { 1 ≤ workers }
    requires few { workers ≤ most_workers }
{
    let (table, mut seat) = table_of(alloc, system)?;
    let mut steps = Steps::<L>::new(blank);
    settle_all(rt, alloc, &table, &mut seat, workers, gate, &mut steps)
}

fn settled<R: Threads + Sync, G: Gate>(
    rt: &R,
    alloc: Global,
    system: System,
    workers: u32,
    gate: &G,
) -> Result<Settled, NoMemory>
    requires some { 1 ≤ workers }
    requires few { workers ≤ most_workers }
{
    settle_counted::<R, G, Brand>(rt, alloc, Blank::new(1), system, workers, gate)
}

/// That so many workers settle the system to these rows.
fn settle_to<R: Abort + Threads + Sync>(
    rt: &R,
    alloc: Global,
    asked: Asked,
    workers: u32,
    rows: &[u16],
) -> Result<(), NoMemory> {
    assert!(rt; 1 <= workers && workers <= 16);
    let settled = settled(rt, alloc, system(rt, alloc, asked)?, workers, &FreeGate)?;
    assert!(rt; settled.rows().as_words() == rows);
    Ok(())
}

#[test]
fn any_number_of_workers_gives_these_rows(rt: HostRuntime) -> Result<(), NoMemory> {
    for workers in [1, 2, 3, 16] {
        for (asked, rows) in [
            (
                Asked::EmptyChannel,
                [0, 0, 1, 1, 2, 1, 3, 2, 1, 1, 1, 2].as_slice(),
            ),
            (Asked::NoCut, &[0, 0, 4, 2, 4, 2, 4, 2, 4, 2, 4, 2]),
            // more workers than processes
            (Asked::OneProcess, &[0, 2, 2]),
        ] {
            settle_to(&rt, rt.alloc(), asked, workers, rows)?;
        }
    }
    Ok(())
}

/// A gate at which workers 1 and 2 wait for each other, each a bounded number of turns.
#[derive(Drop)]
struct Meeting {
    first: AtomicBool,
    second: AtomicBool,
    missed: AtomicBool,
}

impl Meeting {
    fn wait(&self, mine: &AtomicBool, other: &AtomicBool) {
        mine.store(true, Ordering::SeqCst);
        for _turn in 0..1_000_000 {
            if other.load(Ordering::SeqCst) {
                return;
            }
            yield_now();
        }
        self.missed.store(true, Ordering::SeqCst);
    }
}

impl Gate for Meeting {
    fn enter(&self, worker: u32) {
        match worker {
            1 => self.wait(&self.first, &self.second),
            2 => self.wait(&self.second, &self.first),
            _ => {}
        }
    }

    fn leave(&self, _worker: u32) {}
}

#[test]
fn workers_are_there_at_the_same_time(rt: HostRuntime) -> Result<(), NoMemory> {
    let gate = Meeting {
        first: AtomicBool::new(false),
        second: AtomicBool::new(false),
        missed: AtomicBool::new(false),
    };
    let system = order_and(&rt, rt.alloc(), EMPTY_CHANNEL)?;
    let _rows = settled(&rt, rt.alloc(), system, 2, &gate)?;
    let order = Ordering::SeqCst;
    assert!(rt; gate.first.load(order) && gate.second.load(order));
    assert!(rt; !gate.missed.load(order));
    Ok(())
}
