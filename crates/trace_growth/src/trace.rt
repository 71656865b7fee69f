//! A growing trace.
ghost use Rattle.std.specs.Prelude.{◌≡◌, ℕ, ◌-◌, ◌<◌, ◌≤◌, ◌↔◌, Some, None, true, false, pos, []};
ghost use Rattle.std.specs.Prelude.{length, map, get_or, slice_index_or, IsTrue, IfOk, OnOk, IfErr};
ghost use Rattle.std.specs.Prelude.{MatchResult, Err};
ghost use Rattle.run_model.specs.Run.{state_after, process_at};
ghost use Rattle.pota_base.specs.declared.fault.Refused.TheVariants as refused;
ghost use Rattle.pota_base.specs.Shape.{HasEvent};
ghost use Rattle.event_log.specs.States.{IsHeader, trace_of};
ghost use Rattle.vector_clock.specs.Events.{clocks_of};
ghost use Rattle.vector_clock.specs.Messages.{first_send};
ghost use Rattle.vector_clock.specs.Admitted.{IfFault, IfWantsMemory};
ghost use Rattle.trace_growth.specs.Growing.{opened_trace, with_trace_batch, one_more, FitsTrace};
ghost use Rattle.trace_growth.specs.Growing.{IsTrace, trace_fault};

use event_log::{Event, Header, LogFault, States};
use pota_base::{EventId, List, NoMemory, Refused};
use std::alloc::Global;
use std::marker::Model;
use vector_clock::{Clocks, Message, Order, filled};

/// The trace of a log: the data of its events and their order, batch by batch.
///
/// After want of memory it is spent: it takes no batch any more, and nothing may be asked of it.
#[derive(Debug, Drop)]
pub struct Trace {
    states: States,
    clocks: Clocks,
    batches: u32,
    spent: bool,
    alloc: Global,
}

impl Model for Trace {
    ghost use Rattle.trace_growth.specs.Growing.{TraceView};
    ghost use Rattle.trace_growth.specs.inside.Growing.{KeepsTrace};

    ghost Value = { TraceView };

    ghost view = { λ t. record { states = t.states; batches = t.batches; spent = t.spent } };

    ghost invariant = { λ t. KeepsTrace t.states t.clocks t.spent };
}

impl Trace {
    /// A trace of these processes without events.
    pub fn new(alloc: Global, header: Header) -> Result<Trace, NoMemory>
        requires { IsHeader header }
        ensures { IfOk result (λ trace. trace ≡ opened_trace header) }
    {
        let procs = header.procs.len() as u32;
        Ok(Trace {
            states: States::new(alloc, header)?,
            clocks: Clocks::new(alloc, procs)?,
            batches: 0,
            spent: false,
            alloc,
        })
    }

    /// Takes a whole batch, or none of it, with the clocks that it leaves out filled in. A fault is
    /// the first of its clocks and messages, at the line of its event, and the trace is then as
    /// before. After want of memory the trace is spent: it answers want of memory from then on, and
    /// stays as it is.
    pub fn extend(&mut self, batch: List<Event>) -> Result<(), Refused<LogFault>>
        requires { self.old.spent ≡ false → FitsTrace self.old batch }
        ensures ok { OnOk result ((self.old.spent ≡ false)
            × (trace_fault self.old batch ≡ None)
            × (self.new ≡ with_trace_batch self.old batch)) }
        ensures fault { IfFault result (λ fault. (self.old.spent ≡ false)
            × (trace_fault self.old batch ≡ Some fault) × (self.new ≡ self.old)) }
        ensures memory { IfWantsMemory result (self.new.spent ≡ true) }
        ensures spent { self.old.spent ≡ true → result ≡ Err refused.NoMemory }
        ensures still { self.old.spent ≡ true → self.new ≡ self.old }
    {
        if self.spent {
            return Err(Refused::NoMemory);
        }
        if batch.is_empty() {
            self.count_batch();
            return Ok(());
        }
        let batch = match filled(&self.clocks, self.alloc, batch) {
            Ok(batch) => batch,
            Err(NoMemory) => {
                self.spent = true;
                return Err(Refused::NoMemory);
            }
        };
        match self.clocks.admit(batch.as_slice()) {
            Ok(()) => {}
            Err(Refused::Fault(fault)) => return Err(Refused::Fault(fault)),
            Err(Refused::NoMemory) => {
                self.spent = true;
                return Err(Refused::NoMemory);
            }
        }
        if self.states.extend(batch).is_err() {
            self.spent = true;
            return Err(Refused::NoMemory);
        }
        self.count_batch();
        Ok(())
    }

    // One batch more was taken.
    fn count_batch(&mut self)
        ensures { self.new ≡ record self.old { batches = one_more self.old.batches } }
    {
        self.batches = self.batches.saturating_add(1);
    }

    /// Whether memory was wanted.
    pub fn is_spent(&self) -> bool
        ensures { IsTrue result ↔ (self.now.spent ≡ true) }
    {
        self.spent
    }

    /// The names of the processes, and their variables.
    pub fn header(&self) -> &Header
        requires { self.now.spent ≡ false }
        ensures { result.now ≡ self.now.states.header }
    {
        self.states.header()
    }

    /// The data of the events. Whatever watches are handed in, they are a run.
    pub fn states(&self) -> &States
        requires { self.now.spent ≡ false }
        ensures states { result.now ≡ self.now.states }
        ensures trace { IsTrace self.now.states }
    {
        &self.states
    }

    /// The order of the events, by their vector clocks.
    pub fn order(&self) -> &Order
        requires { self.now.spent ≡ false }
        ensures order { result.now ≡ clocks_of self.now.states.events }
        ensures trace { IsTrace self.now.states }
    {
        self.clocks.order()
    }

    /// How many batches were taken. The count stays at 4,294,967,295.
    pub fn batches(&self) -> u32
        requires { self.now.spent ≡ false }
        ensures { result ≡ self.now.batches }
    {
        self.batches
    }

    /// The value of a variable of a process after so many of its events.
    pub fn value(&self, process: u32, position: u32, variable: u32) -> i64
        requires here { self.now.spent ≡ false }
        requires process { process < length self.now.states.events }
        requires state { position ≤ length (get_or self.now.states.events process []) }
        requires variable { variable < length (get_or self.now.states.header.vars process []) }
        ensures { result ≡ get_or
            (state_after (process_at (trace_of self.now.states) process) position)
            variable (pos 0) }
    {
        self.states.value(process, position, variable)
    }

    /// The position of the event that sends the message of this number from the one process to the
    /// other, among those of the sender.
    pub fn place_sent(&self, sender: u32, receiver: u32, id: u64) -> Option<u32>
        requires { self.now.spent ≡ false }
        ensures { result ≡ first_send self.now.states.events
            (record { sender = sender; receiver = receiver; id = id }) }
    {
        self.clocks.place_sent(&Message::new(sender, receiver, id))
    }

    /// The event at a position of a process.
    pub fn event(&self, event: EventId) -> &Event
        requires here { self.now.spent ≡ false }
        requires there { HasEvent (map length self.now.states.events) event }
        ensures { result.now ≡ slice_index_or (get_or self.now.states.events event.process [])
            (event.position - 1) result.now }
    {
        self.states.event(event)
    }
}
