ghost use Rattle.std.specs.Prelude.{◌≡◌, ℕ, ◌+◌, ◌<◌, ◌≤◌, ◌↔◌, length, get_or, set, slice_index};
ghost use Rattle.std.specs.Prelude.{sum, IsNone, IfSome, IfOk};
ghost use Rattle.pota_base.specs.Shape.{IsShape, AreStarts};
ghost use Rattle.pota_base.specs.Limits.{most_events};

use crate::fault::NoMemory;
use std::alloc::Global;
use std::marker::Model;

/// An event of a run.
#[derive(Clone, Copy, Debug, PartialEq, Eq)]
pub struct EventId {
    /// The number of its process, from 0 in the order of the log's processes.
    pub process: u32,
    /// Its place among the events of its process, from 1.
    pub position: u32,
}

/// How many events each process of a run has. Contracts see the list of these lengths.
///
/// The rows of a shape are numbered: row 0 is the bottom's, then come the events of process 0 in
/// order, then those of process 1.
#[derive(Debug, Drop)]
pub struct Shape {
    lens: Vec<u32>,
    /// How many events the processes before a process have. The last entry counts all events.
    starts: Vec<u32>,
}

impl Model for Shape {
    ghost use Rattle.std.specs.Prelude.{List, ℕ};
    ghost use Rattle.pota_base.specs.Shape.{IsShape, AreStarts};

    ghost Value = { List ℕ };

    ghost view = { λ shape. shape.lens.items };

    ghost invariant = { λ shape. IsShape shape.lens.items
        × AreStarts shape.lens.items shape.starts.items };
}

impl Shape {
    ghost use Rattle.pota_base.specs.Shape.{IsShape, HasEvent, row_of};

    /// The shape of a run of 1 to 32 processes with these numbers of events, at most 50,000 in all.
    pub fn new(alloc: Global, lens: &[u32]) -> Result<Shape, NoMemory>
        requires { IsShape lens.now }
        ensures { IfOk result (λ shape. shape ≡ lens.now) }
    {
        let starts = starts_of(alloc, lens)?;
        let lens = Vec::from_slice(alloc, lens)?;
        Ok(Shape { lens, starts })
    }

    /// The same shape, in memory of its own.
    pub fn copy(&self, alloc: Global) -> Result<Shape, NoMemory>
        ensures same { IfOk result (λ shape. shape ≡ self.now) }
        ensures shape { IsShape self.now }
    {
        Shape::new(alloc, self.lens())
    }

    /// The number of events of each process.
    pub fn lens(&self) -> &[u32]
        ensures lens { result.now ≡ self.now }
        ensures shape { IsShape self.now }
    {
        self.lens.as_slice()
    }

    /// The number of processes.
    pub fn procs(&self) -> u32
        ensures count { result ≡ length self.now }
        ensures shape { IsShape self.now }
    {
        self.lens.len() as u32
    }

    /// The number of events of a process.
    pub fn len_of(&self, process: u32) -> u32
        requires { process < length self.now }
        ensures len { result ≡ slice_index self.now process }
        ensures shape { IsShape self.now }
    {
        self.lens[process as usize]
    }

    /// Raises the number of events of a process to `len`. It takes no memory.
    pub fn raise(&mut self, process: u32, len: u32)
        requires process { process < length self.old }
        requires more { slice_index self.old process ≤ len }
        requires shape { IsShape (set self.old process len) }
        ensures { self.new ≡ set self.old process len }
    {
        let place = process as usize;
        let more = len - self.lens[place];
        self.lens[place] = len;
        raise_from(&mut self.starts, place + 1, more);
    }

    /// The number of events of all processes.
    pub fn events(&self) -> u32
        ensures count { result ≡ sum self.now }
        ensures shape { IsShape self.now }
    {
        self.starts[self.lens.len()]
    }

    /// The row of an event.
    pub fn row_of(&self, event: EventId) -> u32
        requires { HasEvent self.now event }
        ensures row { result ≡ row_of self.now event }
        ensures within { result ≤ sum self.now }
    {
        self.starts[event.process as usize] + event.position
    }

    /// The event of a row, and `None` for the bottom's row.
    pub fn event_of(&self, row: u32) -> Option<EventId>
        requires { row ≤ sum self.now }
        ensures bottom { IsNone result ↔ (row ≡ 0) }
        ensures there { IfSome result (HasEvent self.now) }
        ensures row { IfSome result (λ event. row_of self.now event ≡ row) }
    {
        if row == 0 {
            return None;
        }
        for process in 0..self.lens.len() {
            if row <= self.starts[process + 1] {
                return Some(EventId {
                    process: process as u32,
                    position: row - self.starts[process],
                });
            }
        }
        None
    }
}

// Adds as much to each number from a place on.
fn raise_from(starts: &mut Vec<u32>, first: usize, more: u32)
    requires few { (k : ℕ) → k < length starts.old.items
        → get_or starts.old.items k 0 + more ≤ most_events }
    ensures count { length starts.new.items ≡ length starts.old.items }
    ensures below { (k : ℕ) → k < first
        → get_or starts.new.items k 0 ≡ get_or starts.old.items k 0 }
    ensures above { (k : ℕ) → first ≤ k → k < length starts.old.items
        → get_or starts.new.items k 0 ≡ get_or starts.old.items k 0 + more }
{
    for k in first..starts.len() {
        starts[k] += more;
    }
}

/// How many events come before each process, and how many there are.
fn starts_of(alloc: Global, lens: &[u32]) -> Result<Vec<u32>, NoMemory>
    requires { IsShape lens.now }
    ensures { IfOk result (λ starts. AreStarts lens.now starts.items) }
{
    let mut starts = Vec::with_capacity(alloc, lens.len() + 1)?;
    let mut before = 0;
    starts.push(before)?;
    for len in lens {
        before += *len;
        starts.push(before)?;
    }
    Ok(starts)
}
