//! Where each message was met first.
ghost use Rattle.std.specs.Prelude.{◌≡◌, ◌↔◌, ◌<◌, Some, None, length, IsTrue, OnOk, OnErr};
ghost use Rattle.std.specs.Prelude.{if◌then◌else◌, IfSome};
ghost use Rattle.std.specs.Option.{option_or};
ghost use Rattle.vector_clock.specs.Messages.{is_same};
ghost use Rattle.vector_clock.specs.Rising.{rank_of, is_among};
ghost use Rattle.vector_clock.specs.inside.Rising.{IsRising, IsNext};
ghost use Rattle.vector_clock.specs.inside.Met.{without, HaveSame, IsNoted, IsForgotten};

use crate::message::Message;
use pota_base::NoMemory;
use std::alloc::Global;
use std::collections::BTreeMap;

/// The places on their processes of the first event that sends a message and of the first one that
/// receives it.
#[derive(Clone, Copy, Debug)]
pub struct Met {
    pub sent: Option<u32>,
    pub received: Option<u32>,
}

impl Met {
    ghost use Rattle.vector_clock.specs.Met.{nowhere};

    /// Of a message that is neither sent nor received.
    pub fn nowhere() -> Met
        ensures { result ≡ nowhere }
    {
        Met {
            sent: None,
            received: None,
        }
    }

    /// Of a message that is sent at this place.
    pub fn sent_at(place: u32) -> Met
        ensures { result ≡ record { sent = Some place; received = None } }
    {
        Met {
            sent: Some(place),
            received: None,
        }
    }

    /// Of a message that is received at this place.
    pub fn received_at(place: u32) -> Met
        ensures { result ≡ record { sent = None; received = Some place } }
    {
        Met {
            sent: None,
            received: Some(place),
        }
    }

    /// Whether the message is neither sent nor received.
    pub fn is_nowhere(self) -> bool
        ensures { IsTrue result ↔ (self ≡ nowhere) }
    {
        self.sent.is_none() && self.received.is_none()
    }

    /// These places, and those of `other` where these have none.
    fn or(self, other: Met) -> Met
        ensures sent { result.sent ≡ option_or self.sent other.sent }
        ensures received { result.received ≡ option_or self.received other.received }
    {
        Met {
            sent: self.sent.or(other.sent),
            received: self.received.or(other.received),
        }
    }

    /// These places without those that `other` has too.
    fn without(self, other: Met) -> Met
        ensures sent { result.sent ≡ without self.sent other.sent }
        ensures received { result.received ≡ without self.received other.received }
    {
        Met {
            sent: place_without(self.sent, other.sent),
            received: place_without(self.received, other.received),
        }
    }
}

// The place, unless the other one is the same.
fn place_without(place: Option<u32>, other: Option<u32>) -> Option<u32>
    ensures { result ≡ without place other }
{
    match (place, other) {
        (Some(kept), Some(gone)) if kept == gone => None,
        _ => place,
    }
}

/// A message, and where it was met first.
#[derive(Clone, Copy, Debug)]
struct Kept {
    message: Message,
    met: Met,
}

/// The first places of messages, whatever their numbers are.
#[derive(Debug, Drop)]
struct Mapped {
    met: BTreeMap<Message, Met>,
}

impl Mapped {
    ghost use Rattle.vector_clock.specs.Met.{nowhere, mapped_at};

    // No places. It takes no memory.
    fn new(alloc: Global) -> Mapped
        ensures { HaveSame (mapped_at result) (λ m. nowhere) }
    {
        Mapped {
            met: BTreeMap::new(alloc),
        }
    }

    // The places that are kept for the message.
    fn met(&self, message: &Message) -> Met
        ensures { result ≡ mapped_at self.now message.now }
    {
        match self.met.get(message) {
            Some(met) => *met,
            None => Met::nowhere(),
        }
    }

    // Keeps these places for the message, where it has none. Without memory all is as before.
    fn note(&mut self, message: Message, met: Met) -> Result<(), NoMemory>
        ensures ok { OnOk result
            (IsNoted (mapped_at self.old) (mapped_at self.new) message met) }
        ensures err { OnErr result (HaveSame (mapped_at self.new) (mapped_at self.old)) }
    {
        if let Some(kept) = self.met.get_mut(&message) {
            *kept = kept.or(met);
            return Ok(());
        }
        self.met.insert(message, met)?;
        Ok(())
    }

    // Keeps these places no more for the message.
    fn forget(&mut self, message: &Message, met: Met)
        ensures { IsForgotten (mapped_at self.old) (mapped_at self.new) message.now met }
    {
        let left = self.met(message).without(met);
        if left.is_nowhere() {
            let _ = self.met.remove(message);
        } else if let Some(kept) = self.met.get_mut(message) {
            *kept = left;
        }
    }
}

// How many of these have a smaller number. They come first, and where they end is found by halves.
fn rank_of(kept: &[Kept], id: u64) -> usize
    requires { IsRising kept.now }
    ensures { result ≡ rank_of kept.now id }
{
    let (mut low, mut high) = (0, kept.len());
    'halves: while low < high {
        let middle = low + (high - low) / 2;
        if kept[middle].message.id < id {
            low = middle + 1;
        } else {
            high = middle;
        }
    }
    low
}

// Where the message stands among these.
fn index_of(kept: &[Kept], message: &Message) -> Option<usize>
    requires { IsRising kept.now }
    ensures place { result ≡ (if is_among kept.now message.now
        then Some (rank_of kept.now message.now.id) else None) }
    ensures within { IfSome result (λ place. place < length kept.now) }
{
    let place = rank_of(kept, message.id);
    if place < kept.len() && kept[place].message == *message {
        Some(place)
    } else {
        None
    }
}

/// The first places of each message. Most logs number their messages in the order in which they are
/// sent: such messages stand in a list, in which their numbers rise. The others are in a map.
#[derive(Debug, Drop)]
pub struct Places {
    rising: Vec<Kept>,
    others: Mapped,
    ghost ordered: { IsRising rising.items },
}

impl Places {
    ghost use Rattle.vector_clock.specs.Met.{nowhere, mapped_at, met_at};

    /// No places. It takes no memory.
    pub fn new(alloc: Global) -> Places
        ensures { HaveSame (met_at result) (λ m. nowhere) }
    {
        Places {
            rising: Vec::new(alloc),
            others: Mapped::new(alloc),
        }
    }

    /// The places that are kept for the message.
    pub fn met(&self, message: &Message) -> Met
        ensures { result ≡ met_at self.now message.now }
    {
        match index_of(&self.rising, message) {
            Some(place) => self.rising[place].met,
            None => self.others.met(message),
        }
    }

    // Whether the message has a greater number than all in the list, and nothing is kept for it.
    fn is_next(&self, message: &Message) -> bool
        ensures next { IsTrue result → IsNext self.now.rising.items message.now }
        ensures nothing { IsTrue result → mapped_at self.now.others message.now ≡ nowhere }
    {
        if let Some(last) = self.rising.last() {
            if last.message.id >= message.id {
                return false;
            }
        }
        self.others.met(message).is_nowhere()
    }

    /// Keeps these places for the message, where it has none. Without memory all is as before.
    pub fn note(&mut self, message: Message, met: Met) -> Result<(), NoMemory>
        ensures ok { OnOk result (IsNoted (met_at self.old) (met_at self.new) message met) }
        ensures err { OnErr result (HaveSame (met_at self.new) (met_at self.old)) }
    {
        if self.is_next(&message) {
            self.rising.push(Kept { message, met })?;
            return Ok(());
        }
        if let Some(place) = index_of(&self.rising, &message) {
            let met = self.rising[place].met.or(met);
            self.rising[place] = Kept { message, met };
            return Ok(());
        }
        self.others.note(message, met)
    }

    /// Keeps these places no more for the message.
    pub fn forget(&mut self, message: &Message, met: Met)
        ensures { IsForgotten (met_at self.old) (met_at self.new) message.now met }
    {
        if let Some(place) = index_of(&self.rising, message) {
            let met = self.rising[place].met.without(met);
            let message = *message;
            self.rising[place] = Kept { message, met };
            return;
        }
        self.others.forget(message, met);
    }
}
