//! A short arrow for each message that is not received.
ghost use Rattle.std.specs.Prelude.{◌≡◌, ◌+◌, ◌<◌, ◌≤◌, ◌^◌, ◌++◌, length, map, get_or, OnOk};
ghost use Rattle.std.specs.List.{AllByRecursion, flat_map, list_any};
ghost use Rattle.pota_base.specs.Shape.{HasEvent};
ghost use Rattle.view_parts.specs.Parts.{event_at};
ghost use Rattle.view_picture.specs.Drawing.{is_receipt, is_received, lost_of, short_of};
ghost use Rattle.view_picture.specs.Drawing.{lost_arrow, lost_to, lost_from};
ghost use Rattle.view_picture.specs.inside.Lost.{places_behind};

use crate::columns::Columns;
use crate::frame::Frame;
use crate::svg::{Point, put_line};
use event_log::{Kind, States};
use pota_base::{Bytes, EventId, NoMemory};
use view_parts::event_at;

// Whether an event of this kind receives the message of this number from a process.
fn is_receipt(sender: u32, id: u64, kind: Kind) -> bool
    ensures { result ≡ is_receipt sender id kind }
{
    match kind {
        Kind::Internal => false,
        Kind::Send { .. } => false,
        Kind::Receive {
            sender: from,
            id: number,
        } => from == sender && number == id,
    }
}

// How many events a process has, if it is there.
fn count_of(states: &States, process: u32) -> u32
    ensures { result ≡ get_or (map length states.now.events) process 0 }
{
    match states.shape().lens().get(process as usize) {
        None => 0,
        Some(count) => *count,
    }
}

// Whether one of so many events of the receiver behind the first ones receives the message.
fn is_received_among(
    states: &States,
    sender: u32,
    receiver: u32,
    id: u64,
    first: u32,
    count: u32,
) -> bool
    requires there { first + count ≤ get_or (map length states.now.events) receiver 0 }
    requires few { first + count < 2 ^ 32 }
    ensures { result ≡ list_any (λ e. is_receipt sender id (event_at states.now e).kind)
        (places_behind receiver first count) }
{
    for k in 0..count {
        let place = EventId {
            process: receiver,
            position: first + k + 1,
        };
        if is_receipt(sender, id, event_at(states, place).kind) {
            return true;
        }
    }
    false
}

// How many events of a process happened before an event.
fn known_of(states: &States, event: EventId, process: u32) -> u32
    requires { HasEvent (map length states.now.events) event }
{
    let clock = event_at(states, event).clock.as_slice();
    clock.get(process as usize).copied().unwrap_or(0)
}

// Whether an event of the receiver receives the message. The receipt is behind what happened before
// the send, and most often near to it, so that is where it is looked for first.
fn is_received(states: &States, send: EventId, receiver: u32, id: u64) -> bool
    requires { HasEvent (map length states.now.events) send }
    ensures { result ≡ is_received states.now send.process receiver id }
{
    let sender = send.process;
    let count = count_of(states, receiver);
    let known = known_of(states, send, receiver).min(count);
    is_received_among(states, sender, receiver, id, known, count - known)
        || is_received_among(states, sender, receiver, id, 0, known)
}

// To which process an event sends what is not received, if it does.
fn lost_of(states: &States, send: EventId) -> Option<u32>
    requires { HasEvent (map length states.now.events) send }
    ensures { result ≡ lost_of states.now send }
{
    match event_at(states, send).kind {
        Kind::Internal => None,
        Kind::Send { to, id } => {
            if is_received(states, send, to, id) {
                return None;
            }
            Some(to)
        }
        Kind::Receive { .. } => None,
    }
}

// Where a short arrow ends, which points down or up.
fn short_of(at: Point, down: bool) -> Point
    requires near { at.x < 2 ^ 40 }
    requires high { at.y < 2 ^ 40 }
    ensures { result ≡ short_of at down }
{
    let x = at.x + 28;
    if down {
        return Point { x, y: at.y + 18 };
    }
    Point {
        x,
        y: at.y.saturating_sub(18),
    }
}

// Appends a short arrow with an open end and a cross.
fn put_lost_arrow(out: &mut Bytes, at: Point, down: bool) -> Result<(), NoMemory>
    requires near { at.x < 2 ^ 40 }
    requires high { at.y < 2 ^ 40 }
    ensures { OnOk result (out.new ≡ out.old ++ lost_arrow at down) }
{
    put_line(
        out,
        at,
        short_of(at, down),
        b" stroke='#555555' stroke-width='1.5' marker-end='url(#lost)'",
    )
}

// Appends the short arrow to the lane of a receiver, where there is one.
fn put_lost_to(
    out: &mut Bytes,
    at: Point,
    sender: u32,
    receiver: Option<u32>,
) -> Result<(), NoMemory>
    requires near { at.x < 2 ^ 40 }
    requires high { at.y < 2 ^ 40 }
    ensures { OnOk result (out.new ≡ out.old ++ lost_to at sender receiver) }
{
    match receiver {
        None => Ok(()),
        Some(receiver) => put_lost_arrow(out, at, sender < receiver),
    }
}

/// Appends the short arrows of all messages that shown events send and no event receives.
pub fn put_lost(
    out: &mut Bytes,
    states: &States,
    columns: &Columns,
    frame: &Frame,
    shown: &[EventId],
) -> Result<(), NoMemory>
    requires { AllByRecursion (HasEvent (map length states.now.events)) shown.now }
    ensures { OnOk result (out.new ≡ out.old
        ++ flat_map (lost_from states.now frame.now columns.now) shown.now) }
{
    for k in 0..shown.len() {
        let send = shown[k];
        let receiver = lost_of(states, send);
        put_lost_to(out, frame.at(columns, send), send.process, receiver)?;
    }
    Ok(())
}
