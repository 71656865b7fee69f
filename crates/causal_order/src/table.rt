//! A table of vector clocks, of which nothing is known but their widths.
ghost use Rattle.std.specs.Prelude.{◌≡◌, ℕ, ◌-◌, ◌<◌, ◌≤◌, [], List, length, get_or, replicate};
ghost use Rattle.std.specs.Prelude.{set, sum, take, IfOk, OnOk, OnErr};
ghost use Rattle.std.specs.List.{AllByRecursion};
ghost use Rattle.run_model.specs.Cut.{lengths};
ghost use Rattle.run_model.specs.Consistent.{clock};
ghost use Rattle.pota_base.specs.Limits.{most_events};
ghost use Rattle.event_log.specs.declared.log.Event.{Event};
ghost use Rattle.causal_order.specs.Growth.{HasClock, HasGrown, with_clocks, with_row};

use crate::block::Block;
use event_log::Event;
use pota_base::NoMemory;
use std::alloc::Global;
use std::marker::Model;

/// The vector clocks of the events of each process, each with one count for each process. They need
/// not be those of an order.
#[derive(Debug, Drop)]
pub struct ClockTable {
    blocks: Vec<Block>,
}

impl Model for ClockTable {
    ghost use Rattle.std.specs.Prelude.{List, ℕ};
    ghost use Rattle.causal_order.specs.Blocks.{AreWide, clocks_in};

    ghost Value = { List (List (List ℕ)) };

    ghost view = { λ t. clocks_in t.blocks.items };

    ghost invariant = { λ t. AreWide t.blocks.items };
}

impl ClockTable {
    /// A table for so many processes, without clocks.
    pub fn new(alloc: Global, procs: u32) -> Result<ClockTable, NoMemory>
        ensures { IfOk result (λ table. table ≡ replicate procs []) }
    {
        let mut blocks = Vec::with_capacity(alloc, procs as usize)?;
        for _process in 0..procs {
            blocks.push(Block::new(alloc, procs as usize))?;
        }
        Ok(ClockTable { blocks })
    }

    /// How many clocks the process has.
    pub fn len_of(&self, process: u32) -> usize
        requires { process < length self.now }
        ensures { result ≡ length (get_or self.now process []) }
    {
        self.blocks[process as usize].len()
    }

    /// The clock at a position of a process, counted from 1.
    pub fn clock(&self, process: u32, position: u32) -> &[u32]
        requires process { process < length self.now }
        requires first { 1 ≤ position }
        requires last { position ≤ length (get_or self.now process []) }
        ensures clock { result.now ≡ clock self.now process position }
        ensures width { length result.now ≡ length self.now }
    {
        self.blocks[process as usize].row(position as usize)
    }

    /// How many clocks each process has.
    pub fn lens(&self, alloc: Global) -> Result<Vec<u32>, NoMemory>
        requires { sum (lengths self.now) ≤ most_events }
        ensures { IfOk result (λ lens. lens.items ≡ lengths self.now) }
    {
        let mut lens = Vec::with_capacity(alloc, self.blocks.len())?;
        for block in &self.blocks {
            lens.push(block.len() as u32)?;
        }
        Ok(lens)
    }

    /// Takes room for so many more clocks of a process at once.
    pub fn reserve(&mut self, process: u32, more: usize) -> Result<(), NoMemory>
        requires { process < length self.old }
        ensures { self.new ≡ self.old }
    {
        self.blocks[process as usize].reserve(more)
    }

    /// Puts a clock behind those of a process. Without memory for it the table is as before.
    pub fn push(&mut self, process: u32, clock: &[u32]) -> Result<(), NoMemory>
        requires process { process < length self.old }
        requires width { length clock.now ≡ length self.old }
        ensures ok { OnOk result (self.new ≡ with_row self.old process clock.now) }
        ensures err { OnErr result (self.new ≡ self.old) }
    {
        self.blocks[process as usize].push(clock)
    }

    /// Keeps the first `len` clocks of a process.
    pub fn truncate(&mut self, process: u32, len: u32)
        requires process { process < length self.old }
        requires len { len ≤ length (get_or self.old process []) }
        ensures { self.new ≡ set self.old process (take len (get_or self.old process [])) }
    {
        self.blocks[process as usize].truncate(len as usize);
    }

    /// Puts the clock of each event behind those of its process. Without memory some may be there.
    pub fn extend(&mut self, events: &[Event]) -> Result<(), NoMemory>
        requires { AllByRecursion (HasClock (length self.old)) events.now }
        ensures ok { OnOk result (self.new ≡ with_clocks self.old events.now) }
        ensures grown { HasGrown self.old self.new }
    {
        for event in events {
            self.push(event.process, event.clock.as_slice())?;
        }
        Ok(())
    }
}
