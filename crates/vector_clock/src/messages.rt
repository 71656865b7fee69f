//! The messages of a log, and their faults.
ghost use Rattle.std.specs.Prelude.{◌≡◌, ℕ, ◌+◌, ◌<◌, ◌≤◌, nat_lt, if◌then◌else◌, Some, None};
ghost use Rattle.std.specs.Prelude.{length, map, sum, OnOk, OnErr};
ghost use Rattle.std.specs.List.{AllByRecursion};
ghost use Rattle.event_log.specs.States.{with_event, with_batch};
ghost use Rattle.run_model.specs.Cut.{count};
ghost use Rattle.pota_base.specs.Limits.{most_events};
ghost use Rattle.event_log.specs.declared.item.LogCode.TheVariants.{MessageTwice, ReceiveUnsent};
ghost use Rattle.event_log.specs.declared.item.LogCode.TheVariants.{ReceiveEarly};
ghost use Rattle.event_log.specs.LogText.{KindWithin};
ghost use Rattle.event_log.specs.PassedOn.{choose};
ghost use Rattle.vector_clock.specs.Events.{Events, EventFits, no_events, place as place_of};
ghost use Rattle.vector_clock.specs.inside.Events.{raised};
ghost use Rattle.vector_clock.specs.Faults.{message_fault as fault_of_message};
ghost use Rattle.vector_clock.specs.Messages.{first_send};
ghost use Rattle.vector_clock.specs.inside.Met.{is_place};
ghost use Rattle.vector_clock.specs.Admitted.{HasMessages};
ghost use Rattle.vector_clock.specs.inside.Admitted.{StandsIn};

use crate::message::Message;
use crate::places::{Met, Places};
use event_log::{Event, Kind, LogCode};
use pota_base::NoMemory;
use std::alloc::Global;

/// Where each message was sent and received first.
#[derive(Debug, Drop)]
pub struct Messages {
    places: Places,
}

impl Messages {
    /// No messages. It takes no memory.
    pub fn new(alloc: Global) -> Messages
        ensures { (procs : ℕ) → HasMessages result (no_events procs) }
    {
        Messages {
            places: Places::new(alloc),
        }
    }

    /// Keeps the place of an event for the message that it sends or receives, unless an event
    /// before has it. Without memory it is as before.
    pub fn note(&mut self, event: &Event, place: u32) -> Result<(), NoMemory>
        ensures ok { OnOk result ((events : Events) → HasMessages self.old events
            → event.now.process < length events → place ≡ place_of events event.now
            → HasMessages self.new (with_event events event.now)) }
        ensures err { OnErr result ((events : Events) → HasMessages self.old events
            → HasMessages self.new events) }
    {
        match event.kind {
            Kind::Internal => Ok(()),
            Kind::Send { to, id } => {
                let message = Message::new(event.process, to, id);
                self.places.note(message, Met::sent_at(place))
            }
            Kind::Receive { sender, id } => {
                let message = Message::new(sender, event.process, id);
                self.places.note(message, Met::received_at(place))
            }
        }
    }

    /// The place of the first event that sends the message.
    pub fn place_sent(&self, message: &Message) -> Option<u32>
        ensures { (events : Events) → HasMessages self.now events
            → result ≡ first_send events message.now }
    {
        self.places.met(message).sent
    }

    /// Keeps nothing of the last event.
    pub fn forget(&mut self, event: &Event, place: u32)
        ensures { (events : Events) → HasMessages self.old (with_event events event.now)
            → event.now.process < length events → place ≡ place_of events event.now
            → HasMessages self.new events }
    {
        match event.kind {
            Kind::Internal => {}
            Kind::Send { to, id } => {
                let message = Message::new(event.process, to, id);
                self.places.forget(&message, Met::sent_at(place));
            }
            Kind::Receive { sender, id } => {
                let message = Message::new(sender, event.process, id);
                self.places.forget(&message, Met::received_at(place));
            }
        }
    }

    /// The first fault of the message that an event at its place, counted from 1, sends or
    /// receives.
    pub fn message_fault(&self, event: &Event, place: u32) -> Option<LogCode>
        requires first { 1 ≤ place }
        requires peer { KindWithin (length event.now.clock) event.now.kind }
        ensures { (before all : Events) → HasMessages self.now all
            → StandsIn before all event.now place → result ≡ fault_of_message before all event.now }
    {
        match event.kind {
            Kind::Internal => None,
            Kind::Send { to, id } => {
                let message = Message::new(event.process, to, id);
                send_fault(self.places.met(&message), place)
            }
            Kind::Receive { sender, id } => {
                let message = Message::new(sender, event.process, id);
                receipt_fault(event, sender, self.places.met(&message), place)
            }
        }
    }

    /// Keeps the places of the events of a batch, behind so many events of each process, and counts
    /// them. Without memory it is as before.
    pub fn note_all(&mut self, batch: &[Event], taken: &mut Vec<u32>) -> Result<(), NoMemory>
        requires each { AllByRecursion (EventFits (length taken.old.items)) batch.now }
        requires few { sum taken.old.items + length batch.now ≤ most_events }
        ensures ok { OnOk result ((events : Events) → HasMessages self.old events
            → taken.old.items ≡ map length events
            → HasMessages self.new (with_batch events batch.now)) }
        ensures counts { OnOk result (taken.new.items ≡ raised taken.old.items batch.now) }
        ensures err { OnErr result ((events : Events) → HasMessages self.old events
            → taken.old.items ≡ map length events → HasMessages self.new events) }
    {
        for i in 0..batch.len() {
            let event = &batch[i];
            let place = taken[event.process as usize] + 1;
            match self.note(event, place) {
                Ok(()) => taken[event.process as usize] = place,
                Err(no_memory) => {
                    self.forget_all(&batch[..i], taken);
                    return Err(no_memory);
                }
            }
        }
        Ok(())
    }

    /// Keeps nothing of the last events, which are those of a batch. The counts of the events of
    /// each process count them.
    pub fn forget_all(&mut self, batch: &[Event], taken: &mut Vec<u32>)
        requires { AllByRecursion (EventFits (length taken.old.items)) batch.now }
        ensures { (events : Events) → HasMessages self.old (with_batch events batch.now)
            → taken.old.items ≡ map length (with_batch events batch.now)
            → HasMessages self.new events }
    {
        for i in (0..batch.len()).rev() {
            let event = &batch[i];
            let place = taken[event.process as usize];
            self.forget(event, place);
            taken[event.process as usize] = place.saturating_sub(1);
        }
    }
}

// The fault of the send of a message at this place of its process, where it was met so.
fn send_fault(met: Met, place: u32) -> Option<LogCode>
    ensures { result ≡ (if is_place place met.sent then None else Some MessageTwice) }
{
    if met.sent == Some(place) {
        None
    } else {
        Some(LogCode::MessageTwice)
    }
}

// The fault of the receipt of a message of this sender, where it was met so.
fn receipt_fault(event: &Event, sender: u32, met: Met, place: u32) -> Option<LogCode>
    requires { sender < length event.now.clock }
    ensures { result ≡ (if is_place place met.received
        then choose met.sent (λ sent. if nat_lt (count event.now.clock sender) sent
        then Some ReceiveEarly else None) (Some ReceiveUnsent)
        else Some MessageTwice) }
{
    if met.received != Some(place) {
        return Some(LogCode::MessageTwice);
    }
    match met.sent {
        None => Some(LogCode::ReceiveUnsent),
        Some(sent) if event.clock.as_slice()[sender as usize] < sent => Some(LogCode::ReceiveEarly),
        Some(_) => None,
    }
}
