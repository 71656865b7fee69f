ghost use Rattle.std.specs.Prelude.{◌≡◌, ℕ, ◌<◌, ◌≤◌, ◌↔◌, IsTrue, IfOk, List, length, replicate};
ghost use Rattle.std.specs.Prelude.{set};
ghost use Rattle.run_model.specs.Cut.{count, IsWithin, min_cut, max_cut};

use pota_base::{NoMemory, Shape};
use std::alloc::Global;
use std::marker::Model;

/// A cut of a run: how many of its first events each process has in it. Contracts see the list of
/// counts.
#[derive(Debug, Drop)]
pub struct Cut {
    counts: Vec<u32>,
}

impl Model for Cut {
    ghost use Rattle.std.specs.Prelude.{ℕ, List};

    ghost Value = { List ℕ };

    ghost view = { λ cut. cut.counts.items };
}

impl Cut {
    /// The initial cut of so many processes.
    pub fn new(alloc: Global, procs: u32) -> Result<Cut, NoMemory>
        ensures { IfOk result (λ cut. cut ≡ replicate procs 0) }
    {
        Ok(Cut {
            counts: vec![in alloc; 0u32; procs as usize]?,
        })
    }

    /// The counts, by the number of their process.
    pub fn as_slice(&self) -> &[u32]
        ensures { result.now ≡ self.now }
    {
        self.counts.as_slice()
    }

    /// How many events of the process the cut has.
    pub fn get(&self, process: u32) -> u32
        requires { process < length self.now }
        ensures { result ≡ count self.now process }
    {
        self.counts[process as usize]
    }

    /// Gives the process another count.
    pub fn set(&mut self, process: u32, count: u32)
        requires { process < length self.old }
        ensures { self.new ≡ set self.old process count }
    {
        self.counts[process as usize] = count;
    }

    /// Makes `other` the componentwise minimum: the events that both have.
    pub fn meet_into(&self, other: &mut Cut)
        requires { length other.old ≡ length self.now }
        ensures { other.new ≡ min_cut self.now other.old }
    {
        for i in 0..self.counts.len() {
            other.counts[i] = self.counts[i].min(other.counts[i]);
        }
    }

    /// Makes `other` the componentwise maximum: the events that one of them has.
    pub fn join_into(&self, other: &mut Cut)
        requires { length other.old ≡ length self.now }
        ensures { other.new ≡ max_cut self.now other.old }
    {
        for i in 0..self.counts.len() {
            other.counts[i] = self.counts[i].max(other.counts[i]);
        }
    }

    /// Whether each event of this cut is one of `other`.
    pub fn within(&self, other: &Cut) -> bool
        requires { length other.now ≡ length self.now }
        ensures { IsTrue result ↔ IsWithin self.now other.now }
    {
        for i in 0..self.counts.len() {
            if self.counts[i] > other.counts[i] {
                return false;
            }
        }
        true
    }

    /// Whether the cut has every event of the run.
    pub fn is_final(&self, shape: &Shape) -> bool
        requires { length shape.now ≡ length self.now }
        ensures { IsTrue result ↔ (self.now ≡ shape.now) }
    {
        for process in 0..shape.procs() {
            if self.get(process) != shape.len_of(process) {
                return false;
            }
        }
        true
    }
}
