//! How many events are left out between those that are shown.
ghost use Rattle.std.specs.Prelude.{◌≡◌, ◌-◌, ◌<◌, ◌^◌, ◌++◌, [], length, map, get_or, OnOk};
ghost use Rattle.std.specs.List.{AllByRecursion, flat_map};
ghost use Rattle.pota_base.specs.Shape.{HasEvent};
ghost use Rattle.vector_clock.specs.Events.{clocks_of};
ghost use Rattle.view_parts.specs.Each.{each_below};
ghost use Rattle.view_picture.specs.Drawing.{left_out_text, halfway, left_out_before, right_of};
ghost use Rattle.view_picture.specs.Drawing.{left_out_behind, left_out_drawn};
ghost use Rattle.view_picture.specs.Shown.{shown_events};
ghost use Rattle.view_picture.specs.inside.Placing.{RowsFit};

use crate::columns::Columns;
use crate::frame::Frame;
use crate::svg::{Point, put_text};
use event_log::States;
use pota_base::{Bytes, EventId, NoMemory, put_u64};
use std::alloc::Global;

// Appends how many events are left out, above a lane, where some are.
fn put_left_out_text(out: &mut Bytes, alloc: Global, at: Point, count: u32) -> Result<(), NoMemory>
    ensures { OnOk result (out.new ≡ out.old ++ left_out_text at count) }
{
    if count == 0 {
        return Ok(());
    }
    let mut told = Bytes::new(alloc);
    told.extend_from_slice(b".. ")?;
    put_u64(&mut told, u64::from(count))?;
    told.extend_from_slice(b" ..")?;
    let above = Point {
        x: at.x,
        y: at.y.saturating_sub(15),
    };
    put_text(
        out,
        above,
        b" font-size='10' text-anchor='middle' fill='#777777' stroke='#ffffff' stroke-width='3'",
        told.as_slice(),
    )
}

fn halfway(from: Point, to: Point) -> Point
    ensures { result ≡ halfway from to }
{
    Point {
        x: from.x / 2 + to.x / 2,
        y: to.y,
    }
}

fn right_of(at: Point) -> Point
    requires { at.x < 2 ^ 40 }
    ensures { result ≡ right_of at }
{
    Point {
        x: at.x + 34,
        y: at.y,
    }
}

// Appends how many events stand between a shown one and the shown one before it.
fn put_left_out_before(
    out: &mut Bytes,
    alloc: Global,
    columns: &Columns,
    frame: &Frame,
    event: EventId,
) -> Result<(), NoMemory>
    requires first { 0 < event.position }
    requires there { event.position - 1 < length (get_or columns.now event.process []) }
    ensures { OnOk result (out.new
        ≡ out.old ++ left_out_before frame.now columns.now event) }
{
    let before = event.position - 1;
    let from = frame.behind(columns, event.process, before);
    let middle = halfway(from, frame.at(columns, event));
    put_left_out_text(out, alloc, middle, columns.left_out(event.process, before))
}

// The same before each shown event.
fn put_all_before(
    out: &mut Bytes,
    alloc: Global,
    states: &States,
    columns: &Columns,
    frame: &Frame,
    shown: &[EventId],
) -> Result<(), NoMemory>
    requires fit { RowsFit (clocks_of states.now.events) columns.now }
    requires there { AllByRecursion (HasEvent (map length states.now.events)) shown.now }
    ensures { OnOk result (out.new
        ≡ out.old ++ flat_map (left_out_before frame.now columns.now) shown.now) }
{
    for k in 0..shown.len() {
        put_left_out_before(out, alloc, columns, frame, shown[k])?;
    }
    Ok(())
}

// Appends how many of so many events of a process stand behind its last shown one.
fn put_left_out_behind(
    out: &mut Bytes,
    alloc: Global,
    columns: &Columns,
    frame: &Frame,
    process: u32,
    events: u32,
) -> Result<(), NoMemory>
    requires { events < length (get_or columns.now process []) }
    ensures { OnOk result (out.new
        ≡ out.old ++ left_out_behind frame.now columns.now process events) }
{
    if !columns.has_shown(process) {
        return Ok(());
    }
    let last = right_of(frame.behind(columns, process, events));
    put_left_out_text(out, alloc, last, columns.left_out(process, events))
}

// The same of each process.
fn put_all_behind(
    out: &mut Bytes,
    alloc: Global,
    states: &States,
    columns: &Columns,
    frame: &Frame,
) -> Result<(), NoMemory>
    requires { RowsFit (clocks_of states.now.events) columns.now }
    ensures { OnOk result (out.new ≡ out.old ++ each_below (length states.now.events)
        (λ process. left_out_behind frame.now columns.now process
        (get_or (map length states.now.events) process 0))) }
{
    for process in 0..states.shape().procs() {
        let events = states.shape().len_of(process);
        put_left_out_behind(out, alloc, columns, frame, process, events)?;
    }
    Ok(())
}

/// Appends the numbers of all that is left out on the lanes.
pub fn put_left_out(
    out: &mut Bytes,
    alloc: Global,
    states: &States,
    columns: &Columns,
    frame: &Frame,
    shown: &[EventId],
) -> Result<(), NoMemory>
    requires fit { RowsFit (clocks_of states.now.events) columns.now }
    requires there { AllByRecursion (HasEvent (map length states.now.events)) shown.now }
    requires shown { shown.now ≡ shown_events (map length states.now.events) columns.now }
    ensures { OnOk result (out.new
        ≡ out.old ++ left_out_drawn states.now frame.now columns.now) }
{
    put_all_before(out, alloc, states, columns, frame, shown)?;
    put_all_behind(out, alloc, states, columns, frame)
}
