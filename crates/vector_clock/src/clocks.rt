//! The clocks of a log, checked batch by batch.
ghost use Rattle.std.specs.Prelude.{◌≡◌, ℕ, ◌+◌, ◌<◌, ◌≤◌, Some, None, length, sum, IfOk, OnOk};
ghost use Rattle.std.specs.Prelude.{OnErr};
ghost use Rattle.run_model.specs.Cut.{lengths};
ghost use Rattle.pota_base.specs.Limits.{most_processes};
ghost use Rattle.event_log.specs.States.{with_batch};
ghost use Rattle.vector_clock.specs.Events.{Events, BatchFits, BatchStands, no_events, clocks_of};
ghost use Rattle.vector_clock.specs.inside.Events.{raised};
ghost use Rattle.vector_clock.specs.Filled.{filled_batch};
ghost use Rattle.vector_clock.specs.Faults.{batch_fault};
ghost use Rattle.vector_clock.specs.Admitted.{HasAdmitted, HasMessages, IfFault};
ghost use Rattle.vector_clock.specs.Messages.{first_send};

use crate::counts::{clocks_of, copy_filled};
use crate::judging::{first_fault, set_counts};
use crate::message::Message;
use crate::messages::Messages;
use crate::nodes::{nodes_in, readers_of, sends_in};
use causal_order::Order;
use event_log::{Event, LogFault};
use pota_base::{List, NoMemory, Refused};
use std::alloc::Global;

/// The vector clocks and the messages of a log, of which each batch was checked before it was
/// taken.
#[derive(Debug, Drop)]
pub struct Clocks {
    order: Order,
    messages: Messages,
    // Counts of events for the batch that is checked, kept for their memory: with all its events,
    // and with those before the one that is judged.
    taken: Vec<u32>,
    judged: Vec<u32>,
    alloc: Global,
}

impl Clocks {
    /// The clocks of 1 to 32 processes without events.
    pub fn new(alloc: Global, procs: u32) -> Result<Clocks, NoMemory>
        requires some { 1 ≤ procs }
        requires few { procs ≤ most_processes }
        ensures { IfOk result (λ clocks. HasAdmitted clocks (no_events procs)) }
    {
        Ok(Clocks {
            order: Order::new(alloc, procs)?,
            messages: Messages::new(alloc),
            taken: Vec::new(alloc),
            judged: Vec::new(alloc),
            alloc,
        })
    }

    /// The events of a batch behind those that were admitted, with the clocks that it leaves out.
    ///
    /// An event without a clock looks back on the event before it on its process and on the first
    /// send of what it receives, and on what these look back on if they have no clock either. Its
    /// count of a process is the greatest count of the written clocks that it looks back on, or
    /// the place of an event of that process without one. Written clocks stay. It copies the batch.
    ///
    /// It takes time as its clocks have counts, whatever the order of its events, and a look-up by
    /// halves for each message.
    pub fn fill(&self, alloc: Global, batch: &[Event]) -> Result<List<Event>, NoMemory>
        requires { BatchStands (length self.now.order) (sum (lengths self.now.order)) batch.now }
        ensures { IfOk result (λ filled. (events : Events) → HasAdmitted self.now events
            → filled ≡ filled_batch events batch.now) }
    {
        let lens = self.order.shape().lens();
        let sends = sends_in(alloc, batch)?;
        let nodes = nodes_in(alloc, lens, &self.messages, &sends, batch)?;
        let readers = readers_of(alloc, batch, &nodes)?;
        let clocks = clocks_of(alloc, &self.order, batch, &nodes, &readers)?;
        copy_filled(alloc, batch, &clocks)
    }

    /// Checks a batch and takes it whole, or none of it. A fault is the first of its events in
    /// their order, at the line of its event.
    ///
    /// It compares each clock of the batch with that of the event before on its process. Where more
    /// than the event's own count differs, a receipt whose clock joins that one and the clock of
    /// the sender's last event that it counts has no fault, if that event was judged before. Any
    /// other clock is compared with that of the last event of each process that the event newly
    /// names: one that its clock counts and that of the event before doesn't. So an event costs two
    /// or three rows of counts where its clock is as most are, and else about one for each event
    /// that it newly names. A message costs look-ups by halves.
    pub fn admit(&mut self, batch: &[Event]) -> Result<(), Refused<LogFault>>
        requires { BatchFits (length self.old.order) (sum (lengths self.old.order)) batch.now }
        ensures ok { OnOk result ((events : Events) → HasAdmitted self.old events
            → (batch_fault events batch.now ≡ None)
            × HasAdmitted self.new (with_batch events batch.now)) }
        ensures fault { IfFault result (λ fault. (events : Events) → HasAdmitted self.old events
            → batch_fault events batch.now ≡ Some fault) }
        ensures same { OnErr result ((events : Events) → HasAdmitted self.old events
            → HasAdmitted self.new events) }
    {
        if batch.is_empty() {
            return Ok(());
        }
        set_counts(&mut self.taken, self.order.shape().lens())?;
        self.messages.note_all(batch, &mut self.taken)?;
        match self.judge(batch) {
            Ok(()) => Ok(()),
            Err(refused) => {
                self.messages.forget_all(batch, &mut self.taken);
                Err(refused)
            }
        }
    }

    // Takes the clocks of a batch that has no fault, where the messages and the counts that are
    // taken are those up to the end of the batch.
    fn judge(&mut self, batch: &[Event]) -> Result<(), Refused<LogFault>>
        requires fits { BatchFits (length self.old.order) (sum (lengths self.old.order)) batch.now }
        requires taken { self.old.taken.items ≡ raised (lengths self.old.order) batch.now }
        ensures ok { OnOk result ((events : Events) → self.old.order ≡ clocks_of events
            → HasMessages self.old.messages (with_batch events batch.now)
            → (batch_fault events batch.now ≡ None)
            × (self.new.order ≡ clocks_of (with_batch events batch.now))) }
        ensures fault { IfFault result (λ fault. (events : Events)
            → self.old.order ≡ clocks_of events
            → HasMessages self.old.messages (with_batch events batch.now)
            → batch_fault events batch.now ≡ Some fault) }
        ensures messages { self.new.messages ≡ self.old.messages }
        ensures taken { self.new.taken.items ≡ self.old.taken.items }
        ensures same { OnErr result (self.new.order ≡ self.old.order) }
    {
        let fault = first_fault(
            self.alloc,
            &self.order,
            &self.messages,
            batch,
            &self.taken,
            &mut self.judged,
        )?;
        if let Some(fault) = fault {
            return Err(Refused::Fault(fault));
        }
        self.order.extend(batch)?;
        Ok(())
    }

    /// The position of the event that sends the message, among those of its sender.
    pub fn place_sent(&self, message: &Message) -> Option<u32>
        ensures { (events : Events) → HasAdmitted self.now events
            → result ≡ first_send events message.now }
    {
        self.messages.place_sent(message)
    }

    /// The order of all events that were admitted.
    pub fn order(&self) -> &Order
        ensures { result.now ≡ self.now.order }
    {
        &self.order
    }

    /// The order of all events that were admitted.
    pub fn into_order(self) -> Order
        ensures { result ≡ self.order }
    {
        let Clocks {
            order,
            messages: _,
            taken: _,
            judged: _,
            alloc: _,
        } = self;
        order
    }
}
