//! A mark for each event that is shown.
ghost use Rattle.std.specs.Prelude.{◌≡◌, ◌+◌, ◌<◌, ◌≤◌, ◌^◌, ◌++◌, ◌∷◌, [], length, map};
ghost use Rattle.std.specs.Prelude.{OnOk, IfOk, IfSome, nat_lt, Option};
ghost use Rattle.std.specs.List.{AllByRecursion, flat_map};
ghost use Rattle.std.specs.Option.{option_copied};
ghost use Rattle.pota_base.specs.Shape.{HasEvent};
ghost use Rattle.view_parts.specs.Parts.{event_at};
ghost use Rattle.view_picture.specs.Drawing.{title, is_beyond, mark_look, number_look, disc};
ghost use Rattle.view_picture.specs.Drawing.{name_within, value_text, room_for, assigned};
ghost use Rattle.view_picture.specs.Drawing.{assign_text, under_look, under, more_under};
ghost use Rattle.view_picture.specs.Drawing.{assigns_under, mark};

use crate::columns::Columns;
use crate::frame::Frame;
use crate::svg::{Point, put_circle, put_text};
use cut_lattice::Cut;
use event_log::{Assign, States, put_clock};
use pota_base::{Bytes, EventId, NoMemory, put_i64, put_u64};
use std::alloc::Global;
use view_parts::{event_at, put_assigns, put_kind, put_line_of, put_place, variable_name};

/// The most assignments that are shown under a mark.
const MOST_ASSIGNS: usize = 3;

/// What the marks of a picture are drawn from.
#[derive(Clone, Copy)]
pub struct Marked<'a> {
    pub alloc: Global,
    pub states: &'a States,
    pub columns: &'a Columns,
    pub frame: &'a Frame,
    /// The greatest cut of the slice, where it has one.
    pub top: Option<&'a Cut>,
}

// Appends what a browser shows of an event under the pointer.
fn put_title(out: &mut Bytes, states: &States, event: EventId) -> Result<(), NoMemory>
    requires { HasEvent (map length states.now.events) event }
    ensures { OnOk result (out.new ≡ out.old ++ title states.now event) }
{
    out.extend_from_slice(b"<title>")?;
    put_line_of(out, states, event)?;
    out.extend_from_slice(b": ")?;
    put_place(out, states, event)?;
    out.extend_from_slice(b" ")?;
    put_kind(out, states, event)?;
    put_assigns(out, states, event)?;
    out.extend_from_slice(b" clock ")?;
    put_clock(out, event_at(states, event).clock.as_slice())?;
    out.extend_from_slice(b"</title>\n")
}

// Whether the event is beyond the greatest cut of the slice.
fn is_beyond(top: Option<&Cut>, event: EventId) -> bool
    requires { IfSome (option_copied top) (λ cut. event.process < length cut) }
    ensures { result ≡ is_beyond (option_copied top.entry) event }
{
    match top {
        None => false,
        Some(top) => top.get(event.process) < event.position,
    }
}

/// The look of a mark, with a white ring.
pub fn mark_look(beyond: bool) -> &'static [u8]
    ensures { result.now ≡ mark_look beyond }
{
    if beyond {
        return b" fill='#c9c9c9' stroke='#ffffff' stroke-width='6'";
    }
    b" fill='#2b6cb0' stroke='#ffffff' stroke-width='6'"
}

// The look of the number in a mark.
fn number_look(beyond: bool, small: bool) -> &'static [u8]
    ensures { result.now ≡ number_look beyond small }
{
    match (beyond, small) {
        (true, true) => b" font-size='11' text-anchor='middle' fill='#333333'",
        (true, false) => b" font-size='8' text-anchor='middle' fill='#333333'",
        (false, true) => b" font-size='11' text-anchor='middle' fill='#ffffff'",
        (false, false) => b" font-size='8' text-anchor='middle' fill='#ffffff'",
    }
}

// Appends a disc at a point, with a number in it.
fn put_disc(
    out: &mut Bytes,
    alloc: Global,
    at: Point,
    beyond: bool,
    number: u32,
) -> Result<(), NoMemory>
    requires { at.y < 2 ^ 40 }
    ensures { OnOk result (out.new ≡ out.old ++ disc at beyond number) }
{
    put_circle(out, at, 11, mark_look(beyond))?;
    let mut digits = Bytes::new(alloc);
    put_u64(&mut digits, u64::from(number))?;
    let below = Point {
        x: at.x,
        y: at.y + 4,
    };
    put_text(
        out,
        below,
        number_look(beyond, number < 1_000),
        digits.as_slice(),
    )
}

// Appends a name, cut where it has more bytes.
fn put_name_within(out: &mut Bytes, most: usize, name: &[u8]) -> Result<(), NoMemory>
    ensures { OnOk result (out.new ≡ out.old ++ name_within most name.now) }
{
    if name.len() <= most {
        return out.extend_from_slice(name);
    }
    out.extend_from_slice(&name[..most.saturating_sub(2)])?;
    out.extend_from_slice(b"..")
}

// `=VALUE`.
fn value_text(alloc: Global, assign: Assign) -> Result<Bytes, NoMemory>
    ensures { IfOk result (λ text. text ≡ value_text assign) }
{
    let mut text = Bytes::new(alloc);
    text.push(b'=')?;
    put_i64(&mut text, assign.value)?;
    Ok(text)
}

// How many bytes of an assignment have room in a column.
fn room_for(wide: bool) -> usize
    ensures { result ≡ room_for wide }
{
    if wide {
        return 11;
    }
    9
}

// `NAME=VALUE`, of which the name is cut where there is no room for it.
fn assigned(
    alloc: Global,
    states: &States,
    wide: bool,
    process: u32,
    assign: Assign,
) -> Result<Bytes, NoMemory>
    ensures { IfOk result (λ text. text ≡ assigned states.now wide process assign) }
{
    let value = value_text(alloc, assign)?;
    let room = room_for(wide).saturating_sub(value.len());
    let mut text = Bytes::new(alloc);
    put_name_within(
        &mut text,
        room,
        variable_name(states, process, assign.variable),
    )?;
    text.extend_from_slice(value.as_slice())?;
    Ok(text)
}

// The text of an assignment of an event.
fn assign_text(marked: &Marked<'_>, event: EventId, k: usize) -> Result<Bytes, NoMemory>
    requires event { HasEvent (map length marked.now.states.now.events) event }
    requires assign { k < length (event_at marked.now.states.now event).assigns }
    ensures { IfOk result (λ text. text
        ≡ assign_text marked.now.states.now marked.now.frame.now.wide event k) }
{
    let assign = event_at(marked.states, event).assigns.as_slice()[k];
    assigned(
        marked.alloc,
        marked.states,
        marked.frame.wide,
        event.process,
        assign,
    )
}

// The look of an assignment, with a thin rim of white round the letters.
fn under_look(wide: bool) -> &'static [u8]
    ensures { result.now ≡ under_look wide }
{
    if wide {
        return b" text-anchor='middle' fill='#333333' stroke='#ffffff' stroke-width='3'";
    }
    b" font-size='9' text-anchor='middle' fill='#333333' stroke='#ffffff' stroke-width='3'"
}

// Appends a row under the mark of an event.
fn put_under(
    out: &mut Bytes,
    wide: bool,
    at: Point,
    row: usize,
    shown: &[u8],
) -> Result<(), NoMemory>
    requires high { at.y < 2 ^ 40 }
    requires row { row ≤ 3 }
    ensures { OnOk result (out.new ≡ out.old ++ under wide at row shown.now) }
{
    let below = Point {
        x: at.x,
        y: at.y + 33 + 12 * row as u64,
    };
    put_text(out, below, under_look(wide), shown)
}

// Appends that there are more assignments than are shown.
fn put_more(out: &mut Bytes, wide: bool, at: Point, count: usize) -> Result<(), NoMemory>
    requires { at.y < 2 ^ 40 }
    ensures { OnOk result (out.new ≡ out.old ++ more_under wide at count) }
{
    if count > MOST_ASSIGNS {
        return put_under(out, wide, at, MOST_ASSIGNS, b"..");
    }
    Ok(())
}

// Appends the first assignments of an event under its mark.
fn put_assigns_under(
    out: &mut Bytes,
    marked: &Marked<'_>,
    at: Point,
    event: EventId,
) -> Result<(), NoMemory>
    requires event { HasEvent (map length marked.now.states.now.events) event }
    requires high { at.y < 2 ^ 40 }
    ensures { OnOk result (out.new
        ≡ out.old ++ assigns_under marked.now.states.now marked.now.frame.now.wide at event) }
{
    let count = event_at(marked.states, event).assigns.len();
    for k in 0..count.min(MOST_ASSIGNS) {
        let text = assign_text(marked, event, k)?;
        put_under(out, marked.frame.wide, at, k, text.as_slice())?;
    }
    put_more(out, marked.frame.wide, at, count)
}

// Appends the mark of an event.
fn put_mark(out: &mut Bytes, marked: &Marked<'_>, event: EventId) -> Result<(), NoMemory>
    requires event { HasEvent (map length marked.now.states.now.events) event }
    requires top { IfSome (option_copied marked.now.top) (λ cut. event.process < length cut) }
    ensures { OnOk result (out.new ≡ out.old ++ mark marked.now.states.now marked.now.frame.now
        marked.now.columns.now (option_copied marked.now.top) event) }
{
    let at = marked.frame.at(marked.columns, event);
    out.extend_from_slice(b"<g>")?;
    put_title(out, marked.states, event)?;
    let beyond = is_beyond(marked.top, event);
    put_disc(out, marked.alloc, at, beyond, event.position)?;
    put_assigns_under(out, marked, at, event)?;
    out.extend_from_slice(b"</g>\n")
}

/// Appends the marks of these events.
pub fn put_marks(out: &mut Bytes, marked: &Marked<'_>, shown: &[EventId]) -> Result<(), NoMemory>
    requires top { IfSome (option_copied marked.now.top)
        (λ cut. length cut ≡ length marked.now.states.now.events) }
    requires there { AllByRecursion (HasEvent (map length marked.now.states.now.events)) shown.now }
    ensures { OnOk result (out.new ≡ out.old
        ++ flat_map (mark marked.now.states.now marked.now.frame.now marked.now.columns.now
        (option_copied marked.now.top)) shown.now) }
{
    for k in 0..shown.len() {
        put_mark(out, marked, shown[k])?;
    }
    Ok(())
}
