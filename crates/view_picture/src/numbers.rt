//! The numbers of messages at their arrows, where they are not too many.
ghost use Rattle.std.specs.Prelude.{◌≡◌, ◌<◌, ◌≤◌, ◌^◌, ◌++◌, false, length, map, OnOk};
ghost use Rattle.std.specs.List.{AllByRecursion, count_by, flat_map};
ghost use Rattle.pota_base.specs.Shape.{HasEvent};
ghost use Rattle.view_picture.specs.Shown.{shown_events};
ghost use Rattle.view_picture.specs.Drawing.{is_receive, receives, number_of, lanes_apart};
ghost use Rattle.view_picture.specs.Drawing.{on_arrow, arrow_number, number_from, number_to};
ghost use Rattle.view_picture.specs.Drawing.{numbers_drawn};

use crate::columns::Columns;
use crate::frame::Frame;
use crate::svg::{Point, put_text};
use crate::ties::shown_send;
use event_log::{Kind, States};
use pota_base::{Bytes, EventId, NoMemory, put_u64};
use std::alloc::Global;
use trace_growth::Trace;
use view_parts::event_at;

/// Up to so many arrows have numbers.
const MOST_NUMBERS: usize = 30;

// Whether an event of this kind receives something.
fn is_receive(kind: Kind) -> bool
    ensures { result ≡ is_receive kind }
{
    match kind {
        Kind::Internal => false,
        Kind::Send { .. } => false,
        Kind::Receive { .. } => true,
    }
}

// The number of the message that an event of this kind sends or receives.
fn number_of(kind: Kind) -> u64
    ensures { result ≡ number_of kind }
{
    match kind {
        Kind::Internal => 0,
        Kind::Send { id, .. } => id,
        Kind::Receive { id, .. } => id,
    }
}

// How many of these events receive something.
fn receipts_among(states: &States, shown: &[EventId]) -> usize
    requires { AllByRecursion (HasEvent (map length states.now.events)) shown.now }
    ensures { result ≡ count_by (receives states.now) shown.now }
{
    let mut count = 0usize;
    for k in 0..shown.len() {
        if is_receive(event_at(states, shown[k]).kind) {
            count += 1;
        }
    }
    count
}

// How many lanes further a process is, at least one.
fn lanes_apart(from: u32, to: u32) -> u64
    ensures apart { result ≡ lanes_apart from to }
    ensures some { 1 ≤ result }
    ensures few { result < 2 ^ 32 }
{
    let apart = from.saturating_sub(to).max(to.saturating_sub(from));
    u64::from(apart.max(1))
}

// A place on an arrow that goes so many lanes further, halfway to the next one.
fn on_arrow(from: Point, to: Point, lanes: u64) -> Point
    requires near { from.x < 2 ^ 40 }
    requires far { to.x < 2 ^ 40 }
    requires high { from.y < 2 ^ 40 }
    requires some { 1 ≤ lanes }
    requires few { lanes < 2 ^ 32 }
    ensures { result ≡ on_arrow from to lanes }
{
    let x = from.x + to.x.saturating_sub(from.x) / (2 * lanes);
    if from.y < to.y {
        return Point { x, y: from.y + 52 };
    }
    Point {
        x,
        y: from.y.saturating_sub(44),
    }
}

// Appends a number on the arrow from a send to a receipt.
fn put_arrow_number(
    out: &mut Bytes,
    alloc: Global,
    columns: &Columns,
    frame: &Frame,
    send: EventId,
    receipt: EventId,
    number: u64,
) -> Result<(), NoMemory>
    ensures { OnOk result (out.new
        ≡ out.old ++ arrow_number frame.now columns.now send receipt number) }
{
    let from = frame.at(columns, send);
    let to = frame.at(columns, receipt);
    let place = on_arrow(from, to, lanes_apart(send.process, receipt.process));
    let mut digits = Bytes::new(alloc);
    put_u64(&mut digits, number)?;
    put_text(
        out,
        place,
        b" font-size='10' text-anchor='middle' fill='#555555' stroke='#ffffff' stroke-width='3'",
        digits.as_slice(),
    )
}

// Appends the number of a message at the arrow to its receipt, where its send is known.
fn put_number_from(
    out: &mut Bytes,
    alloc: Global,
    columns: &Columns,
    frame: &Frame,
    receipt: EventId,
    number: u64,
    send: Option<EventId>,
) -> Result<(), NoMemory>
    ensures { OnOk result (out.new
        ≡ out.old ++ number_from frame.now columns.now receipt number send) }
{
    match send {
        None => Ok(()),
        Some(send) => put_arrow_number(out, alloc, columns, frame, send, receipt, number),
    }
}

// Appends the numbers at the arrows to these events.
fn put_all_numbers(
    out: &mut Bytes,
    alloc: Global,
    trace: &Trace,
    columns: &Columns,
    frame: &Frame,
    shown: &[EventId],
) -> Result<(), NoMemory>
    requires here { trace.now.spent ≡ false }
    requires there { AllByRecursion (HasEvent (map length trace.now.states.events)) shown.now }
    ensures { OnOk result (out.new ≡ out.old
        ++ flat_map (number_to trace.now.states frame.now columns.now) shown.now) }
{
    for k in 0..shown.len() {
        let receipt = shown[k];
        let number = number_of(event_at(trace.states(), receipt).kind);
        let send = shown_send(trace, columns, receipt);
        put_number_from(out, alloc, columns, frame, receipt, number, send)?;
    }
    Ok(())
}

/// Appends the numbers at all arrows, where not too many of the shown events receive something.
pub fn put_numbers(
    out: &mut Bytes,
    alloc: Global,
    trace: &Trace,
    columns: &Columns,
    frame: &Frame,
    shown: &[EventId],
) -> Result<(), NoMemory>
    requires here { trace.now.spent ≡ false }
    requires there { AllByRecursion (HasEvent (map length trace.now.states.events)) shown.now }
    requires shown { shown.now ≡ shown_events (map length trace.now.states.events) columns.now }
    ensures { OnOk result (out.new
        ≡ out.old ++ numbers_drawn trace.now.states frame.now columns.now) }
{
    if receipts_among(trace.states(), shown) <= MOST_NUMBERS {
        return put_all_numbers(out, alloc, trace, columns, frame, shown);
    }
    Ok(())
}
