//! The order of a run's events.
ghost use Rattle.std.specs.Prelude.{◌≡◌, ℕ, ◌+◌, ◌<◌, ◌≤◌, ◌↔◌, [], length, get_or, replicate, sum};
ghost use Rattle.std.specs.Prelude.{IsTrue, IfOk, OnOk, OnErr};
ghost use Rattle.std.specs.List.{AllByRecursion};
ghost use Rattle.run_model.specs.Cut.{Clocks, count, lengths, with_next};
ghost use Rattle.run_model.specs.Consistent.{IsOrder, IsConsistent, HappenedBefore, clock};
ghost use Rattle.run_model.specs.Sublattice.{IsLeast, Having};
ghost use Rattle.pota_base.specs.Shape.{IsShape, HasEvent};
ghost use Rattle.pota_base.specs.Limits.{most_events, most_processes};
ghost use Rattle.causal_order.specs.Growth.{HasClock, HasGrown, MayExtend, with_clocks};

use crate::table::ClockTable;
use cut_lattice::Cut;
use event_log::{Event, MANY_EVENTS, count_events};
use pota_base::{EventId, NoMemory, Shape};
use std::alloc::Global;
use std::marker::Model;

/// The order of the events of a run, as their vector clocks state it. Contracts see the clocks of
/// each process, and know that they are those of an order.
#[derive(Debug, Drop)]
pub struct Order {
    shape: Shape,
    table: ClockTable,
}

impl Model for Order {
    ghost use Rattle.std.specs.Prelude.{List, ℕ};
    ghost use Rattle.causal_order.specs.Blocks.{AreOrdered};

    ghost Value = { List (List (List ℕ)) };

    ghost view = { λ o. o.table };

    ghost invariant = { λ o. AreOrdered o.shape o.table };
}

// Keeps the first clocks of each process, as many as the shape has.
fn cut_back(table: &mut ClockTable, shape: &Shape)
    requires count { length shape.now ≡ length table.old }
    requires fits { (p : ℕ) → get_or shape.now p 0 ≤ length (get_or table.old p []) }
    // A table that has grown since it had this shape is again what it was.
    ensures { (before : Clocks) → HasGrown before table.old → shape.now ≡ lengths before
        → table.new ≡ before }
{
    for process in 0..shape.procs() {
        table.truncate(process, shape.len_of(process));
    }
}

// Takes room at once for the clocks of a batch.
fn make_room(table: &mut ClockTable, procs: u32, events: &[Event]) -> Result<(), NoMemory>
    requires procs { procs ≡ length table.old }
    requires most { procs ≤ most_processes }
    requires each { AllByRecursion (HasClock (length table.old)) events.now }
    requires few { length events.now ≤ most_events }
    ensures { table.new ≡ table.old }
{
    let counts = count_events(events);
    for p in 0..procs {
        table.reserve(p, counts[p as usize] as usize)?;
    }
    Ok(())
}

// Puts the clocks of a batch behind those that are there. Without memory some may be there.
fn add_batch(table: &mut ClockTable, procs: u32, events: &[Event]) -> Result<(), NoMemory>
    requires procs { procs ≡ length table.old }
    requires most { procs ≤ most_processes }
    requires each { AllByRecursion (HasClock (length table.old)) events.now }
    requires few { length events.now ≤ most_events }
    ensures ok { OnOk result (table.new ≡ with_clocks table.old events.now) }
    ensures grown { HasGrown table.old table.new }
{
    if events.len() >= MANY_EVENTS {
        make_room(table, procs, events)?;
    }
    table.extend(events)
}

// Makes the shape that of a table that has grown since it had this shape.
fn measure(shape: &mut Shape, table: &ClockTable)
    requires count { length shape.old ≡ length table.now }
    requires fits { (p : ℕ) → get_or shape.old p 0 ≤ length (get_or table.now p []) }
    requires few { sum (lengths table.now) ≤ most_events }
    ensures { shape.new ≡ lengths table.now }
{
    for process in 0..shape.procs() {
        let len = table.len_of(process) as u32;
        if len > shape.len_of(process) {
            shape.raise(process, len);
        }
    }
}

// Whether each count of the clock, but that of one process, is within the cut.
fn others_within(clock: &[u32], cut: &Cut, process: u32) -> bool
    requires { length clock.now ≡ length cut.now }
    ensures { IsTrue result ↔ ((j : ℕ) → (j ≡ process → ⊥) → count clock.now j ≤ count cut.now j) }
{
    let counts = cut.as_slice();
    for j in 0..counts.len() {
        if j != process as usize && clock[j] > counts[j] {
            return false;
        }
    }
    true
}

impl Order {
    /// The order of 1 to 32 processes without events.
    pub fn new(alloc: Global, procs: u32) -> Result<Order, NoMemory>
        requires some { 1 ≤ procs }
        requires few { procs ≤ most_processes }
        ensures { IfOk result (λ o. o ≡ replicate procs []) }
    {
        let table = ClockTable::new(alloc, procs)?;
        let lens = table.lens(alloc)?;
        let shape = Shape::new(alloc, &lens)?;
        Ok(Order { shape, table })
    }

    /// Puts events behind those that are there. Without memory it is as before.
    pub fn extend(&mut self, events: &[Event]) -> Result<(), NoMemory>
        requires { MayExtend self.old events.now }
        ensures ok { OnOk result (self.new ≡ with_clocks self.old events.now) }
        ensures err { OnErr result (self.new ≡ self.old) }
    {
        match add_batch(&mut self.table, self.shape.procs(), events) {
            Ok(()) => {
                measure(&mut self.shape, &self.table);
                Ok(())
            }
            Err(no_memory) => {
                cut_back(&mut self.table, &self.shape);
                Err(no_memory)
            }
        }
    }

    /// How many events each process has.
    pub fn shape(&self) -> &Shape
        ensures lens { result.now ≡ lengths self.now }
        ensures shape { IsShape (lengths self.now) }
        ensures order { IsOrder self.now }
    {
        &self.shape
    }

    /// The vector clock of an event: how many events of each process are it or before it.
    pub fn clock(&self, event: EventId) -> &[u32]
        requires { HasEvent (lengths self.now) event }
        ensures clock { result.now ≡ clock self.now event.process event.position }
        ensures width { length result.now ≡ length self.now }
    {
        self.table.clock(event.process, event.position)
    }

    /// Whether the first event happened before the second. It takes no memory.
    pub fn before(&self, first: EventId, second: EventId) -> bool
        requires first { HasEvent (lengths self.now) first }
        requires second { HasEvent (lengths self.now) second }
        ensures { IsTrue result
            ↔ HappenedBefore self.now first.process first.position second.process second.position }
    {
        first != second && self.clock(second)[first.process as usize] >= first.position
    }

    /// Makes `into` the least consistent cut that has the event. It takes no memory.
    pub fn past_into(&self, event: EventId, into: &mut Cut)
        requires event { HasEvent (lengths self.now) event }
        requires width { length into.old ≡ length self.now }
        ensures past { into.new ≡ clock self.now event.process event.position }
        ensures least { IsLeast
            (Having (IsConsistent self.now) event.process event.position) into.new }
    {
        let clock = self.clock(event);
        for process in 0..self.shape.procs() {
            into.set(process, clock[process as usize]);
        }
    }

    /// Whether the cut is consistent. It takes no memory.
    pub fn is_consistent(&self, cut: &Cut) -> bool
        requires { length cut.now ≡ length self.now }
        ensures { IsTrue result ↔ IsConsistent self.now cut.now }
    {
        let procs = self.shape.procs();
        for process in 0..procs {
            let position = cut.get(process);
            if position > self.shape.len_of(process) {
                return false;
            }
            let last = EventId { process, position };
            if position > 0 && !others_within(self.clock(last), cut, process) {
                return false;
            }
        }
        true
    }

    /// Whether the process has a next event and the cut with it is consistent. It takes no memory.
    pub fn can_take(&self, cut: &Cut, process: u32) -> bool
        requires process { process < length self.now }
        requires consistent { IsConsistent self.now cut.now }
        ensures { IsTrue result ↔ ((count cut.now process < count (lengths self.now) process)
            × IsConsistent self.now (with_next cut.now process)) }
    {
        let position = cut.get(process);
        if position >= self.shape.len_of(process) {
            return false;
        }
        let next = EventId {
            process,
            position: position + 1,
        };
        others_within(self.clock(next), cut, process)
    }
}
