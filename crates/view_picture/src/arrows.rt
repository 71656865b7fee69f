//! An arrow for each message whose send and receipt are shown, and a thin line for each tie.
ghost use Rattle.std.specs.Prelude.{◌≡◌, ◌++◌, false, length, map, OnOk};
ghost use Rattle.std.specs.List.{AllByRecursion, flat_map};
ghost use Rattle.pota_base.specs.Shape.{HasEvent};
ghost use Rattle.view_picture.specs.Drawing.{arrow_from, arrow_to, tie_drawn};
ghost use Rattle.view_picture.specs.Frame.{at};
ghost use Rattle.view_picture.specs.Svg.{line};

use crate::columns::Columns;
use crate::frame::Frame;
use crate::svg::put_line;
use crate::ties::shown_send;
use pota_base::{Bytes, EventId, NoMemory};
use slice_graph::Edge;
use trace_growth::Trace;

// Appends a line from the mark of an event to that of another.
fn put_between(
    out: &mut Bytes,
    columns: &Columns,
    frame: &Frame,
    first: EventId,
    other: EventId,
    look: &[u8],
) -> Result<(), NoMemory>
    ensures { OnOk result (out.new ≡ out.old ++ line (at frame.now columns.now first)
        (at frame.now columns.now other) look.now) }
{
    let from = frame.at(columns, first);
    let to = frame.at(columns, other);
    put_line(out, from, to, look)
}

// Appends an arrow to a receipt, where its send is known and shown.
fn put_arrow_from(
    out: &mut Bytes,
    columns: &Columns,
    frame: &Frame,
    receipt: EventId,
    send: Option<EventId>,
) -> Result<(), NoMemory>
    ensures { OnOk result (out.new ≡ out.old ++ arrow_from frame.now columns.now receipt send) }
{
    match send {
        None => Ok(()),
        Some(send) => put_between(
            out,
            columns,
            frame,
            send,
            receipt,
            b" stroke='#555555' stroke-width='1.5' marker-end='url(#message)'",
        ),
    }
}

/// Appends the arrows to the shown events.
pub fn put_arrows(
    out: &mut Bytes,
    trace: &Trace,
    columns: &Columns,
    frame: &Frame,
    shown: &[EventId],
) -> Result<(), NoMemory>
    requires here { trace.now.spent ≡ false }
    requires there { AllByRecursion (HasEvent (map length trace.now.states.events)) shown.now }
    ensures { OnOk result (out.new ≡ out.old
        ++ flat_map (arrow_to trace.now.states frame.now columns.now) shown.now) }
{
    for k in 0..shown.len() {
        let send = shown_send(trace, columns, shown[k]);
        put_arrow_from(out, columns, frame, shown[k], send)?;
    }
    Ok(())
}

/// Appends the ties.
pub fn put_ties(
    out: &mut Bytes,
    columns: &Columns,
    frame: &Frame,
    ties: &[Edge],
) -> Result<(), NoMemory>
    ensures { OnOk result (out.new
        ≡ out.old ++ flat_map (tie_drawn frame.now columns.now) ties.now) }
{
    for tie in ties {
        let look = b" stroke='#999999' stroke-width='1'";
        put_between(out, columns, frame, tie.cause, tie.effect, look)?;
    }
    Ok(())
}
