//! Rows of events.
ghost use Rattle.std.specs.Prelude.{◌≡◌, ◌≤◌, ◌++◌, [], ◌∷◌, length, map, OnOk};
ghost use Rattle.pota_base.specs.Shape.{HasEvent};
ghost use Rattle.view_text.specs.Text.{with_assigns, event_row, step_row, left_out_row};
ghost use Rattle.view_text.specs.Text.{lined};

use crate::columns::{put_cell, put_spaces, put_to_the_right};
use event_log::States;
use pota_base::{Bytes, EventId, NoMemory, put_u64};
use std::alloc::Global;
use view_parts::{put_assigns, put_kind, put_line_of, put_place};

// Columns of a row.
const LINE_COLUMNS: usize = 10;

const PLACE_COLUMNS: usize = 14;

const KIND_COLUMNS: usize = 14;

const NUMBER_COLUMNS: usize = 5;

// Appends what an event does, and its assignments if it has any.
fn put_with_assigns(out: &mut Bytes, kind: &[u8], assigns: &[u8]) -> Result<(), NoMemory>
    ensures { OnOk result (out.new ≡ out.old ++ with_assigns kind.now assigns.now) }
{
    match assigns {
        [] => out.extend_from_slice(kind),
        [_, ..] => {
            put_cell(out, KIND_COLUMNS, kind)?;
            out.extend_from_slice(assigns)
        }
    }
}

/// Appends the row of an event.
pub fn put_event_row(
    out: &mut Bytes,
    alloc: Global,
    states: &States,
    event: EventId,
) -> Result<(), NoMemory>
    requires { HasEvent (map length states.now.events) event }
    ensures { OnOk result (out.new ≡ out.old ++ event_row states.now event) }
{
    let mut line = Bytes::new(alloc);
    put_line_of(&mut line, states, event)?;
    put_cell(out, LINE_COLUMNS, line.as_slice())?;
    let mut place = Bytes::new(alloc);
    put_place(&mut place, states, event)?;
    put_cell(out, PLACE_COLUMNS, place.as_slice())?;
    let mut kind = Bytes::new(alloc);
    put_kind(&mut kind, states, event)?;
    let mut assigns = Bytes::new(alloc);
    put_assigns(&mut assigns, states, event)?;
    put_with_assigns(out, kind.as_slice(), assigns.as_slice())?;
    out.push(b'\n')
}

/// Appends the row of a step with its number.
pub fn put_step_row(
    out: &mut Bytes,
    alloc: Global,
    states: &States,
    number: u64,
    event: EventId,
) -> Result<(), NoMemory>
    requires { HasEvent (map length states.now.events) event }
    ensures { OnOk result (out.new ≡ out.old ++ step_row states.now number event) }
{
    let mut digits = Bytes::new(alloc);
    put_u64(&mut digits, number)?;
    put_to_the_right(out, NUMBER_COLUMNS, digits.as_slice())?;
    put_spaces(out, 2)?;
    put_event_row(out, alloc, states, event)
}

/// Appends how many steps are not shown, where some are not.
pub fn put_left_out(out: &mut Bytes, steps: u64) -> Result<(), NoMemory>
    ensures { OnOk result (out.new ≡ out.old ++ left_out_row steps) }
{
    if steps == 0 {
        return Ok(());
    }
    put_spaces(out, 7)?;
    put_u64(out, steps)?;
    out.extend_from_slice(if steps == 1 {
        b" event\n"
    } else {
        b" events\n"
    })
}

/// Appends `NAME POSITION (line N)`.
pub fn put_lined(out: &mut Bytes, states: &States, event: EventId) -> Result<(), NoMemory>
    requires { HasEvent (map length states.now.events) event }
    ensures { OnOk result (out.new ≡ out.old ++ lined states.now event) }
{
    put_place(out, states, event)?;
    out.extend_from_slice(b" (")?;
    put_line_of(out, states, event)?;
    out.extend_from_slice(b")")
}
