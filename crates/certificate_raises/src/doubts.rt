//! Which pulls may fail.
ghost use Rattle.std.specs.Prelude.{◌≡◌, ℕ, ◌+◌, ◌<◌, ◌≤◌, true, false, length};
ghost use Rattle.std.specs.Prelude.{slice_index, slice_index_or, slice_set, IfOk};
ghost use Rattle.pull_system.specs.Marks.{marked};
ghost use Rattle.certificate_table.specs.Begun.{BegunView};
ghost use Rattle.certificate_raises.specs.Canonical.{AreDoubts};

use pota_base::{List, NoMemory};
use pull_fans::System;
use std::alloc::Global;
use std::marker::Model;

/// For each pull of a system whether it is in doubt: whether it may fail at the present row.
#[derive(Debug, Drop)]
pub struct Doubts {
    marks: List<bool>,
}

impl Model for Doubts {
    ghost use Rattle.std.specs.Prelude.{Bool, List};

    ghost Value = { List Bool };

    ghost view = { λ doubts. doubts.marks };
}

impl Doubts {
    /// All pulls of the system are in doubt.
    pub fn new(alloc: Global, system: &System) -> Result<Doubts, NoMemory>
        ensures { IfOk result (λ doubts. (v : BegunView) → v.system ≡ system.now
            → AreDoubts v doubts) }
    {
        let count = system.pulls() as usize;
        let mut marks = List::with_capacity(alloc, count)?;
        for _pull in 0..count {
            marks.push(true)?;
        }
        Ok(Doubts { marks })
    }

    /// All pulls are in doubt again.
    pub fn reset(&mut self)
        ensures { (v : BegunView) → length self.old ≡ length v.system.pulls
            → AreDoubts v self.new }
    {
        for pull in 0..self.marks.len() {
            self.marks.replace(pull, true);
        }
    }

    /// Whether the pull is in doubt.
    pub(crate) fn has(&self, pull: u32) -> bool
        requires { pull < length self.now }
        ensures { result ≡ slice_index_or self.now pull true }
    {
        *self.marks.get(pull as usize)
    }

    /// The pull is no longer in doubt.
    pub(crate) fn remove(&mut self, pull: u32)
        requires { pull < length self.old }
        ensures { self.new ≡ slice_set self.old pull false }
    {
        self.marks.replace(pull as usize, false);
    }

    /// These pulls are in doubt too.
    pub(crate) fn add(&mut self, pulls: &[u32])
        requires { (i : ℕ) → i < length pulls.now → slice_index pulls.now i < length self.old }
        ensures count { length self.new ≡ length self.old }
        ensures added { (i : ℕ) → i < length pulls.now
            → slice_index_or self.new (slice_index pulls.now i) true ≡ true }
        ensures kept { (k : ℕ) → slice_index_or self.new k true ≡ false
            → slice_index_or self.old k true ≡ false }
        ensures marked { marked self.new ≤ marked self.old + length pulls.now }
    {
        for &pull in pulls {
            self.marks.replace(pull as usize, true);
        }
    }
}
