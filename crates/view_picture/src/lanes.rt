//! A line and a name for each process that has a shown event.
ghost use Rattle.std.specs.Prelude.{◌≡◌, ◌++◌, length, OnOk};
ghost use Rattle.view_parts.specs.Each.{each_below};
ghost use Rattle.view_picture.specs.Drawing.{lane_line, lane_name, lane_drawn};

use crate::columns::Columns;
use crate::frame::Frame;
use crate::svg::{Point, put_line, put_text};
use event_log::States;
use pota_base::{Bytes, NoMemory};
use view_parts::name_at;

// Appends the line of a process.
fn put_lane_line(
    out: &mut Bytes,
    columns: &Columns,
    frame: &Frame,
    process: u32,
) -> Result<(), NoMemory>
    ensures { OnOk result (out.new ≡ out.old ++ lane_line frame.now columns.now process) }
{
    let y = Frame::lane(columns, process);
    let from = Point {
        x: u64::from(frame.left),
        y,
    };
    let to = Point {
        x: frame.width.saturating_sub(20),
        y,
    };
    put_line(out, from, to, b" stroke='#bbbbbb' stroke-width='2'")
}

// Appends the name of a process.
fn put_lane_name(
    out: &mut Bytes,
    states: &States,
    columns: &Columns,
    process: u32,
) -> Result<(), NoMemory>
    ensures { OnOk result (out.new ≡ out.old ++ lane_name states.now columns.now process) }
{
    let y = Frame::lane(columns, process) + 5;
    let name = name_at(states.header().procs.as_slice(), process);
    put_text(
        out,
        Point { x: 20, y },
        b" font-size='15' font-weight='bold'",
        name,
    )
}

// Appends the line of a process with its name, if the process has a shown event.
fn put_lane(
    out: &mut Bytes,
    states: &States,
    columns: &Columns,
    frame: &Frame,
    process: u32,
) -> Result<(), NoMemory>
    ensures { OnOk result (out.new
        ≡ out.old ++ lane_drawn states.now frame.now columns.now process) }
{
    if !columns.has_shown(process) {
        return Ok(());
    }
    put_lane_line(out, columns, frame, process)?;
    put_lane_name(out, states, columns, process)
}

/// Appends the lines of all processes that have a shown event.
pub fn put_lanes(
    out: &mut Bytes,
    states: &States,
    columns: &Columns,
    frame: &Frame,
) -> Result<(), NoMemory>
    ensures { OnOk result (out.new ≡ out.old
        ++ each_below (length states.now.header.procs)
        (lane_drawn states.now frame.now columns.now)) }
{
    for process in 0..states.header().procs.len() as u32 {
        put_lane(out, states, columns, frame, process)?;
    }
    Ok(())
}
