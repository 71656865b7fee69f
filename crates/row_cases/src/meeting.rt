//! A gate that shows whether two workers are there at the same time.

use pota_base::Gate;
use std::sync::atomic::{AtomicBool, AtomicU64, Ordering};
use std::thread::yield_now;

/// How many turns a worker waits for the other one.
const TURNS: u32 = 1_000_000;

/// A worker of the gate: whether it came, and how often.
#[derive(Drop)]
struct Visits {
    came: AtomicBool,
    count: AtomicU64,
}

impl Visits {
    fn new() -> Visits {
        Visits {
            came: AtomicBool::new(false),
            count: AtomicU64::new(0),
        }
    }

    fn add(&self) {
        self.count.fetch_add(1, Ordering::SeqCst);
        self.came.store(true, Ordering::SeqCst);
    }
}

/// A gate at which workers 1 and 2 wait for each other, each a bounded number of turns.
#[derive(Drop)]
pub struct Meeting {
    first: Visits,
    second: Visits,
    missed: AtomicBool,
}

impl Meeting {
    /// A gate at which nobody was.
    pub fn new() -> Meeting {
        Meeting {
            first: Visits::new(),
            second: Visits::new(),
            missed: AtomicBool::new(false),
        }
    }

    fn wait_for(&self, other: &Visits) {
        for _turn in 0..TURNS {
            if other.came.load(Ordering::SeqCst) {
                return;
            }
            yield_now();
        }
        self.missed.store(true, Ordering::SeqCst);
    }

    /// Whether no wait ran out, and each of the two workers entered so often.
    pub fn was_kept(&self, times: u32) -> bool {
        let times = u64::from(times);
        !self.missed.load(Ordering::SeqCst)
            && self.first.count.load(Ordering::SeqCst) == times
            && self.second.count.load(Ordering::SeqCst) == times
    }
}

impl Gate for Meeting {
    fn enter(&self, worker: u32) {
        match worker {
            1 => {
                self.first.add();
                self.wait_for(&self.second);
            }
            2 => {
                self.second.add();
                self.wait_for(&self.first);
            }
            _ => {}
        }
    }

    fn leave(&self, _worker: u32) {}
}
