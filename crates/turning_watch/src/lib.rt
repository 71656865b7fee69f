//! A watch that turns its answer with each state, for the programs that run rows: what it answers
//! tells how often it was fed. It counts the states that it is fed, and that it is dropped.
//!
//! Its answers are proved to be false, true, false and so on (`answers`). Nothing is said of the
//! counts, which the rows show.
#![tactic(auto)]

ghost use Rattle.std.specs.Prelude.{List, ℤ};

use std::alloc::{AllocError, Global};
use std::sync::Arc;
use std::sync::atomic::{AtomicU64, Ordering};
use watch::Watch;

/// What watches that turn their answer count.
#[derive(Drop)]
pub struct Counts {
    fed: AtomicU64,
    dropped: AtomicU64,
}

impl Counts {
    /// Nothing was counted.
    ///
    /// # Errors
    ///
    /// Where there is no memory.
    pub fn new(alloc: Global) -> Result<Arc<Counts, Global>, AllocError> {
        let counts = Counts {
            fed: AtomicU64::new(0),
            dropped: AtomicU64::new(0),
        };
        Ok(Arc::new(alloc, counts)?)
    }

    /// How many states the watches were fed.
    pub fn fed(&self) -> u64 {
        self.fed.load(Ordering::SeqCst)
    }

    /// How many of the watches were dropped.
    pub fn dropped(&self) -> u64 {
        self.dropped.load(Ordering::SeqCst)
    }
}

/// Answers false, true, false and so on, whatever it is fed.
pub struct Turning {
    next: bool,
    counts: Arc<Counts, Global>,
}

impl Turning {
    /// No state was fed.
    pub fn new(counts: Arc<Counts, Global>) -> Turning {
        Turning {
            next: false,
            counts,
        }
    }
}

impl Drop for Turning {
    fn drop(self) {
        self.counts.dropped.fetch_add(1, Ordering::SeqCst);
        let Turning { next: _, counts: _ } = self;
    }
}

impl Watch for Turning {
    ghost use Rattle.turning_watch.specs.Sizes.{length-turning_from};
    ghost use Rattle.turning_watch.specs.Turning.{turning_from};

    ghost answers = { λ t. turning_from t.next };

    ghost one_each = { λ t. length-turning_from t.next };

    fn feed(&mut self, _state: &[i64]) -> bool {
        self.counts.fed.fetch_add(1, Ordering::SeqCst);
        let answer = self.next;
        self.next = !answer;
        answer
    }
}
