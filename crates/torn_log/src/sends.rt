//! Where each message is sent first.
ghost use Rattle.std.specs.Prelude.{◌≡◌, ◌↔◌, ℕ, ◌<◌, length, map, None, IfOk, OnOk, IsTrue};
ghost use Rattle.vector_clock.specs.declared.message.Message.{Message as MessageOf};
ghost use Rattle.run_model.specs.Cut.{IsWithin};
ghost use Rattle.event_log.specs.States.{with_event};
ghost use Rattle.vector_clock.specs.Events.{Events, EventStands, no_events, place as place_of};
ghost use Rattle.torn_log.specs.Items.{with_item, with_items, ItemStands, ItemsStand};
ghost use Rattle.torn_log.specs.Counts.{HasRoom};
ghost use Rattle.torn_log.specs.Needs.{need, need_of_receipt};
ghost use Rattle.torn_log.specs.Sends.{place_in, HasSends, IsNoted};

use crate::counting::{count, zeros};
use crate::part::Part;
use event_log::{Event, Kind};
use pota_base::{List, NoMemory};
use std::alloc::Global;
use std::collections::BTreeMap;
use vector_clock::Message;

/// The place on its sender of the first event that sends each message, counted from 1.
#[derive(Drop)]
pub struct Sends {
    places: BTreeMap<Message, usize>,
}

// Whether each count of the clock is within the cut.
fn is_within(clock: &[u32], cut: &[usize]) -> bool
    requires { length clock.now ≡ length cut.now }
    ensures { IsTrue result ↔ IsWithin clock.now cut.now }
{
    for i in 0..clock.len() {
        if clock[i] as usize > cut[i] {
            return false;
        }
    }
    true
}

impl Sends {
    // No sends. It takes no memory.
    fn new(alloc: Global) -> Sends
        ensures { (m : MessageOf) → place_in result m ≡ None }
    {
        Sends {
            places: BTreeMap::new(alloc),
        }
    }

    // Keeps the place for the message, unless it has one.
    fn keep(&mut self, message: Message, place: usize) -> Result<(), NoMemory>
        ensures { OnOk result (IsNoted self.old self.new message place) }
    {
        if self.places.get(&message).is_some() {
            return Ok(());
        }
        self.places.insert(message, place)?;
        Ok(())
    }

    // Keeps the place of an event for the message that it sends, unless an event before has it.
    fn note(&mut self, event: &Event, place: usize) -> Result<(), NoMemory>
        ensures { OnOk result ((events : Events) → HasSends self.old events
            → event.now.process < length events → place ≡ place_of events event.now
            → HasSends self.new (with_event events event.now)) }
    {
        match event.kind {
            Kind::Send { to, id } => self.keep(Message::new(event.process, to, id), place),
            Kind::Internal => Ok(()),
            Kind::Receive { .. } => Ok(()),
        }
    }

    // The same of a part, by the counts of the events before it.
    fn note_part<P: Part>(&mut self, part: &P, counts: &List<usize>) -> Result<(), NoMemory>
        requires stands { ItemStands (length counts.now) (P.item part.now) }
        requires room { HasRoom counts.now }
        ensures { OnOk result ((events : Events) → HasSends self.old events
            → counts.now ≡ map length events
            → HasSends self.new (with_item events (P.item part.now))) }
    {
        match part.event() {
            Some(event) => self.note(event, counts.as_slice()[event.process as usize] + 1),
            None => Ok(()),
        }
    }

    /// The first sends of the parts of so many processes.
    pub fn of<P: Part>(alloc: Global, parts: &[P], procs: usize) -> Result<Sends, NoMemory>
        requires { ItemsStand procs (map P.item parts.now) }
        ensures { IfOk result (λ sends. HasSends sends
            (with_items (no_events procs) (map P.item parts.now))) }
    {
        // So its length is one that a word holds.
        let _len = parts.len();
        let mut sends = Sends::new(alloc);
        let mut counts = zeros(alloc, procs)?;
        for part in parts {
            sends.note_part(part, &counts)?;
            count(&mut counts, part);
        }
        Ok(sends)
    }

    // Whether the message is sent within the cut.
    fn is_sent(&self, message: &Message, cut: &[usize]) -> bool
        requires { message.now.sender < length cut.now }
        ensures { (events : Events) → HasSends self.now events → length cut.now ≡ length events
            → IsWithin cut.now (map length events)
            → IsTrue result ↔ IsWithin (need_of_receipt events message.now) cut.now }
    {
        match self.places.get(message) {
            Some(place) => *place <= cut[message.sender as usize],
            None => false,
        }
    }

    /// Whether all that the event stands on is within the cut.
    pub fn has_needs(&self, event: &Event, cut: &[usize]) -> bool
        requires { EventStands (length cut.now) event.now }
        ensures { (events : Events) → HasSends self.now events → length cut.now ≡ length events
            → IsWithin cut.now (map length events)
            → IsTrue result ↔ IsWithin (need events event.now) cut.now }
    {
        if !event.clock.is_empty() {
            return is_within(event.clock.as_slice(), cut);
        }
        match event.kind {
            Kind::Receive { sender, id } => {
                self.is_sent(&Message::new(sender, event.process, id), cut)
            }
            Kind::Internal => true,
            Kind::Send { .. } => true,
        }
    }
}
