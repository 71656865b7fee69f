//! The data of a growing trace.
ghost use Rattle.std.specs.Prelude.{◌≡◌, ℕ, ◌-◌, pos, ◌<◌, ◌≤◌, [], List, length, map, get_or};
ghost use Rattle.std.specs.Prelude.{replicate, slice_index_or, sum, IfOk, OnOk, OnErr};
ghost use Rattle.run_model.specs.Run.{state_after, states_of, process_at};
ghost use Rattle.pota_base.specs.Shape.{HasEvent};
ghost use Rattle.pota_base.specs.Limits.{most_events};
ghost use Rattle.event_log.specs.declared.log.Event.{Event};
ghost use Rattle.event_log.specs.States.{HistoryView, StatesView, IsHeader, AreWhole, MayFollow};
ghost use Rattle.event_log.specs.States.{with_batch, trace_of};
ghost use Rattle.event_log.specs.inside.States.{nothing};

use crate::all_histories::Histories;
use crate::log::{Event, Header};
use pota_base::{EventId, List, NoMemory, Shape};
use std::alloc::Global;
use std::marker::Model;

/// The data of a trace: a header, and the events of each process in their order. It keeps the
/// values of all variables after each event.
#[derive(Debug, Drop)]
pub struct States {
    header: Header,
    shape: Shape,
    histories: Histories,
}

impl Model for States {
    ghost use Rattle.std.specs.Prelude.{map};
    ghost use Rattle.event_log.specs.States.{HistoryView, StatesView, AreStates};

    ghost Value = { StatesView };

    ghost view = { λ s. record {
      header = s.header;
      events = map (λ (h : HistoryView). h.events) s.histories;
    } };

    ghost invariant = { λ s. AreStates s.header s.shape s.histories };
}

// How many events each process has.
fn lens_of(alloc: Global, histories: &Histories) -> Result<Vec<u32>, NoMemory>
    requires { sum (map (λ (h : HistoryView). length h.events) histories.now) ≤ most_events }
    ensures { IfOk result (λ lens. lens.items
        ≡ map (λ (h : HistoryView). length h.events) histories.now) }
{
    let mut lens = Vec::with_capacity(alloc, histories.procs())?;
    for process in 0..histories.procs() {
        lens.push(histories.len_of(process) as u32)?;
    }
    Ok(lens)
}

// Makes the shape that of histories that have grown since they had this shape.
fn measure(shape: &mut Shape, histories: &Histories)
    requires count { length shape.old ≡ length histories.now }
    requires fits { (p : ℕ)
        → get_or shape.old p 0 ≤ length (get_or histories.now p nothing).events }
    requires few { sum (map (λ (h : HistoryView). length h.events) histories.now) ≤ most_events }
    ensures { shape.new ≡ map (λ (h : HistoryView). length h.events) histories.now }
{
    for process in 0..shape.procs() {
        let len = histories.len_of(process as usize) as u32;
        if len > shape.len_of(process) {
            shape.raise(process, len);
        }
    }
}

impl States {
    /// The states of processes that have no events yet.
    pub fn new(alloc: Global, header: Header) -> Result<States, NoMemory>
        requires { IsHeader header }
        ensures { IfOk result (λ s. s
            ≡ record { header = header; events = replicate (length header.procs) [] }) }
    {
        let histories = Histories::new(alloc, header.vars.as_slice())?;
        let lens = lens_of(alloc, &histories)?;
        let shape = Shape::new(alloc, &lens)?;
        Ok(States {
            header,
            shape,
            histories,
        })
    }

    /// The names of the processes, and their variables.
    pub fn header(&self) -> &Header
        ensures header { result.now ≡ self.now.header }
        ensures whole { AreWhole self.now }
    {
        &self.header
    }

    /// How many events each process has.
    pub fn shape(&self) -> &Shape
        ensures { result.now ≡ map length self.now.events }
    {
        &self.shape
    }

    /// The value of a variable of a process after so many of its events.
    pub fn value(&self, process: u32, position: u32, variable: u32) -> i64
        requires process { process < length self.now.events }
        requires state { position ≤ length (get_or self.now.events process []) }
        requires variable { variable < length (get_or self.now.header.vars process []) }
        ensures { result ≡ get_or
            (state_after (process_at (trace_of self.now) process) position) variable (pos 0) }
    {
        self.histories.value(process, position, variable)
    }

    /// The state of a process after so many of its events: the values of its variables, in their
    /// order.
    pub fn state(&self, process: u32, position: u32) -> &[i64]
        requires process { process < length self.now.events }
        requires state { position ≤ length (get_or self.now.events process []) }
        ensures state { result.now
            ≡ get_or (states_of (process_at (trace_of self.now) process)) position [] }
        ensures width { length result.now ≡ length (get_or self.now.header.vars process []) }
    {
        self.histories.state(process, position)
    }

    /// The event at a position of a process, counted from 1.
    pub fn event(&self, event: EventId) -> &Event
        requires { HasEvent (map length self.now.events) event }
        ensures { result.now ≡ slice_index_or (get_or self.now.events event.process [])
            (event.position - 1) result.now }
    {
        self.histories.event(event)
    }

    /// Puts the events of a batch behind those that are there. Without memory it is as before.
    pub fn extend(&mut self, batch: List<Event>) -> Result<(), NoMemory>
        requires { MayFollow self.old.header self.old.events batch }
        ensures ok { OnOk result (self.new
            ≡ record self.old { events = with_batch self.old.events batch }) }
        ensures err { OnErr result (self.new ≡ self.old) }
    {
        self.histories.extend(batch.into_vec(), &self.shape)?;
        measure(&mut self.shape, &self.histories);
        Ok(())
    }
}
