//! Cuts as lines across the lanes, and the witness that is drawn.
ghost use Rattle.std.specs.Prelude.{◌≡◌, ◌+◌, ◌<◌, ◌≤◌, ◌^◌, ◌++◌, length, OnOk};
ghost use Rattle.pota_base.specs.Limits.{most_processes};
ghost use Rattle.view_picture.specs.Drawing.{corner, shown_corners, cut_drawn, numbered};
ghost use Rattle.view_picture.specs.Drawing.{step_drawn};
ghost use Rattle.view_picture.specs.Drawing.{steps_drawn, ring, path_drawn, witness_drawn};
ghost use Rattle.view_picture.specs.inside.Drawing.{HasFewProcesses};

use crate::columns::Columns;
use crate::frame::Frame;
use crate::svg::{Point, put_circle, put_text};
use cut_lattice::Cut;
use pota_base::{Bytes, EventId, NoMemory, put_u64};
use std::alloc::Global;
use witness_kinds::{Path, Witness};

/// The line of the least cut of a slice runs so far behind the last event that is in.
pub const LEAST_SHIFT: u64 = 18;
/// The line of a goal does.
const GOAL_SHIFT: u64 = 25;
/// The line of the greatest cut does.
pub const GREATEST_SHIFT: u64 = 32;

// Appends ` X,Y`.
fn put_corner(out: &mut Bytes, x: u64, y: u64) -> Result<(), NoMemory>
    ensures { OnOk result (out.new ≡ out.old ++ corner x y) }
{
    out.push(b' ')?;
    put_u64(out, x)?;
    out.push(b',')?;
    put_u64(out, y)
}

// Appends the two corners of the line of a cut on the lane of a process, if it has one.
fn put_corners(
    out: &mut Bytes,
    columns: &Columns,
    frame: &Frame,
    cut: &Cut,
    shift: u64,
    process: u32,
) -> Result<(), NoMemory>
    requires process { process < length cut.now }
    requires shift { shift ≤ 100 }
    ensures { OnOk result (out.new
        ≡ out.old ++ shown_corners frame.now columns.now cut.now shift process) }
{
    if !columns.has_shown(process) {
        return Ok(());
    }
    let last = frame.behind(columns, process, cut.get(process));
    put_corner(out, last.x + shift, last.y.saturating_sub(32))?;
    put_corner(out, last.x + shift, last.y + 32)
}

/// Appends the line of a cut: on each lane it runs so far behind the last shown event that it has.
pub fn put_cut(
    out: &mut Bytes,
    columns: &Columns,
    frame: &Frame,
    cut: &Cut,
    shift: u64,
    look: &[u8],
) -> Result<(), NoMemory>
    requires few { length cut.now ≤ most_processes }
    requires shift { shift ≤ 100 }
    ensures { OnOk result (out.new
        ≡ out.old ++ cut_drawn frame.now columns.now cut.now shift look.now) }
{
    out.extend_from_slice(b"<polyline points='")?;
    for process in 0..cut.as_slice().len() as u32 {
        put_corners(out, columns, frame, cut, shift, process)?;
    }
    out.extend_from_slice(b"' fill='none'")?;
    out.extend_from_slice(look)?;
    out.extend_from_slice(b"/>\n")
}

// Appends the number of a step, at the left of its mark.
fn put_numbered(out: &mut Bytes, alloc: Global, at: Point, number: u64) -> Result<(), NoMemory>
    requires { at.y < 2 ^ 40 }
    ensures { OnOk result (out.new ≡ out.old ++ numbered at number) }
{
    let mut digits = Bytes::new(alloc);
    put_u64(&mut digits, number)?;
    let corner = Point {
        x: at.x.saturating_sub(14),
        y: at.y + 4,
    };
    put_text(
        out,
        corner,
        b" font-weight='bold' text-anchor='end' fill='#b35900' stroke='#ffffff' stroke-width='4'",
        digits.as_slice(),
    )
}

// Appends the number of a step, if its event is shown.
fn put_step(
    out: &mut Bytes,
    alloc: Global,
    columns: &Columns,
    frame: &Frame,
    event: EventId,
    number: u64,
) -> Result<(), NoMemory>
    ensures { OnOk result (out.new
        ≡ out.old ++ step_drawn frame.now columns.now event number) }
{
    if !columns.is_shown(event) {
        return Ok(());
    }
    put_numbered(out, alloc, frame.at(columns, event), number)
}

// Appends the numbers of the steps of a path whose events are shown.
fn put_steps(
    out: &mut Bytes,
    alloc: Global,
    columns: &Columns,
    frame: &Frame,
    steps: &[EventId],
) -> Result<(), NoMemory>
    ensures { OnOk result (out.new ≡ out.old ++ steps_drawn frame.now columns.now steps.now) }
{
    for k in 0..steps.len() {
        put_step(out, alloc, columns, frame, steps[k], k as u64 + 1)?;
    }
    Ok(())
}

// Appends a ring round the mark of an event.
fn put_ring(
    out: &mut Bytes,
    columns: &Columns,
    frame: &Frame,
    event: EventId,
) -> Result<(), NoMemory>
    ensures { OnOk result (out.new ≡ out.old ++ ring frame.now columns.now event) }
{
    put_circle(
        out,
        frame.at(columns, event),
        16,
        b" fill='none' stroke='#b35900' stroke-width='2.5'",
    )
}

// Appends the steps and the goal of a path.
fn put_path(
    out: &mut Bytes,
    alloc: Global,
    columns: &Columns,
    frame: &Frame,
    path: &Path,
) -> Result<(), NoMemory>
    requires { length path.now.goal ≤ most_processes }
    ensures { OnOk result (out.new ≡ out.old
        ++ path_drawn frame.now columns.now path.now.steps path.now.goal) }
{
    put_steps(out, alloc, columns, frame, path.steps.as_slice())?;
    put_cut(
        out,
        columns,
        frame,
        &path.goal,
        GOAL_SHIFT,
        b" stroke='#b35900' stroke-width='2.5'",
    )
}

/// Appends what is drawn of a witness: its steps and its goal, or rings round a pair.
pub fn put_witness(
    out: &mut Bytes,
    alloc: Global,
    columns: &Columns,
    frame: &Frame,
    witness: &Witness,
) -> Result<(), NoMemory>
    requires { HasFewProcesses witness.now }
    ensures { OnOk result (out.new ≡ out.old ++ witness_drawn frame.now columns.now witness.now) }
{
    match witness {
        Witness::Reach(path) => put_path(out, alloc, columns, frame, path),
        Witness::Against(path) => put_path(out, alloc, columns, frame, path),
        Witness::Always(path) => put_path(out, alloc, columns, frame, path),
        Witness::StuckPair(first, other) => {
            put_ring(out, columns, frame, *first)?;
            put_ring(out, columns, frame, *other)
        }
        Witness::Nothing => Ok(()),
        Witness::StuckStart => Ok(()),
        Witness::StuckFinish => Ok(()),
    }
}
