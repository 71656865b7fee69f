//! What each color and dash means, in words below the lanes.
ghost use Rattle.std.specs.Prelude.{◌≡◌, ◌<◌, ◌≤◌, ◌^◌, ◌++◌, length, map, OnOk, IfOk};
ghost use Rattle.view_parts.specs.Each.{places};
ghost use Rattle.view_picture.specs.Shown.{shown_events};
ghost use Rattle.view_picture.specs.Picture.{row_at, told, sample, sample_disc, legend};
ghost use Rattle.view_picture.specs.Picture.{slice_legend, edges_note, edges_told, edges_legend};
ghost use Rattle.view_picture.specs.Picture.{ties_legend, note_text, are_all, note_drawn};
ghost use Rattle.view_picture.specs.Picture.{note_of};
ghost use Rattle.view_picture.specs.Picture.{meaning_of, witness_meaning};

use crate::columns::Columns;
use crate::frame::Frame;
use crate::marks::mark_look;
use crate::svg::{Point, put_circle, put_line, put_text};
use crate::told::MOST_EDGES;
use event_log::States;
use pota_base::{Bytes, EventId, NoMemory, put_u64};
use report::WitnessText;
use std::alloc::Global;
use witness_kinds::Witness;

/// A row below the lanes, so far from the left.
pub fn row_at(frame: &Frame, x: u64, row: u64) -> Point
    requires height { frame.now.height < 2 ^ 40 }
    requires row { row ≤ 5 }
    ensures at { result ≡ row_at frame.now x row }
    ensures low { result.y < 2 ^ 50 }
{
    Point {
        x,
        y: frame.height.saturating_sub(126) + 20 * row,
    }
}

/// Appends what stands so far right of the beginning of a row.
pub fn put_told(out: &mut Bytes, at: Point, right: u64, meaning: &[u8]) -> Result<(), NoMemory>
    requires near { at.x < 2 ^ 50 }
    requires low { at.y < 2 ^ 50 }
    requires right { right ≤ 100 }
    ensures { OnOk result (out.new ≡ out.old ++ told at right meaning.now) }
{
    let beside = Point {
        x: at.x + right,
        y: at.y + 4,
    };
    put_text(out, beside, b" font-size='12'", meaning)
}

/// Appends a line with its look, and what it means.
pub fn put_sample(out: &mut Bytes, at: Point, look: &[u8], meaning: &[u8]) -> Result<(), NoMemory>
    requires near { at.x < 2 ^ 50 }
    requires low { at.y < 2 ^ 50 }
    ensures { OnOk result (out.new ≡ out.old ++ sample at look.now meaning.now) }
{
    let end = Point {
        x: at.x + 50,
        y: at.y,
    };
    put_line(out, at, end, look)?;
    put_told(out, at, 60, meaning)
}

// Appends a disc with its look, and what it means.
fn put_sample_disc(out: &mut Bytes, at: Point, look: &[u8], meaning: &[u8]) -> Result<(), NoMemory>
    requires near { at.x < 2 ^ 50 }
    requires low { at.y < 2 ^ 50 }
    ensures { OnOk result (out.new ≡ out.old ++ sample_disc at look.now meaning.now) }
{
    let middle = Point {
        x: at.x + 25,
        y: at.y,
    };
    put_circle(out, middle, 7, look)?;
    put_told(out, at, 60, meaning)
}

/// Appends what the shapes mean that each picture has.
pub fn put_legend(out: &mut Bytes, frame: &Frame) -> Result<(), NoMemory>
    requires { frame.now.height < 2 ^ 40 }
    ensures { OnOk result (out.new ≡ out.old ++ legend frame.now) }
{
    let message = b" stroke='#555555' stroke-width='1.5'";
    let lost = b" stroke='#555555' stroke-width='1.5' marker-end='url(#lost)'";
    put_sample_disc(out, row_at(frame, 20, 0), mark_look(false), b"event")?;
    put_sample(out, row_at(frame, 20, 1), message, b"message")?;
    put_sample(
        out,
        row_at(frame, 20, 2),
        lost,
        b"message that is not received",
    )
}

/// Appends what lines and marks say of a slice.
pub fn put_slice_legend(out: &mut Bytes, frame: &Frame) -> Result<(), NoMemory>
    requires { frame.now.height < 2 ^ 40 }
    ensures { OnOk result (out.new ≡ out.old ++ slice_legend frame.now) }
{
    let least = b" stroke='#7a3db8' stroke-width='2' stroke-dasharray='8 4'";
    let greatest = b" stroke='#7a3db8' stroke-width='2' stroke-dasharray='2 3'";
    put_sample(out, row_at(frame, 300, 0), least, b"least cut of the slice")?;
    put_sample(
        out,
        row_at(frame, 300, 1),
        greatest,
        b"greatest cut of the slice",
    )?;
    put_sample_disc(
        out,
        row_at(frame, 300, 2),
        mark_look(true),
        b"event beyond the greatest cut",
    )
}

// Appends how many edges are not drawn.
fn put_edges_note(
    out: &mut Bytes,
    alloc: Global,
    frame: &Frame,
    left_out: usize,
) -> Result<(), NoMemory>
    requires { frame.now.height < 2 ^ 40 }
    ensures { OnOk result (out.new ≡ out.old ++ edges_note frame.now left_out) }
{
    if left_out == 0 {
        return Ok(());
    }
    let mut meaning = Bytes::new(alloc);
    meaning.extend_from_slice(b"edges that are not drawn: ")?;
    put_u64(&mut meaning, left_out as u64)?;
    put_told(out, row_at(frame, 300, 4), 0, meaning.as_slice())
}

// Appends what the dashed lines of so many edges mean.
fn put_edges_told(
    out: &mut Bytes,
    alloc: Global,
    frame: &Frame,
    edges: usize,
) -> Result<(), NoMemory>
    requires { frame.now.height < 2 ^ 40 }
    ensures { OnOk result (out.new ≡ out.old ++ edges_told frame.now edges) }
{
    put_sample(
        out,
        row_at(frame, 20, 4),
        b" stroke='#7a3db8' stroke-dasharray='5 4'",
        b"edge of the slice",
    )?;
    put_edges_note(out, alloc, frame, edges.saturating_sub(MOST_EDGES))
}

/// Appends the same, if there are edges.
pub fn put_edges_legend(
    out: &mut Bytes,
    alloc: Global,
    frame: &Frame,
    edges: usize,
) -> Result<(), NoMemory>
    requires { frame.now.height < 2 ^ 40 }
    ensures { OnOk result (out.new ≡ out.old ++ edges_legend frame.now edges) }
{
    if edges == 0 {
        return Ok(());
    }
    put_edges_told(out, alloc, frame, edges)
}

/// Appends what a thin line means, if there are ties.
pub fn put_ties_legend(out: &mut Bytes, frame: &Frame, ties: usize) -> Result<(), NoMemory>
    requires { frame.now.height < 2 ^ 40 }
    ensures { OnOk result (out.new ≡ out.old ++ ties_legend frame.now ties) }
{
    if ties == 0 {
        return Ok(());
    }
    let tie = b" stroke='#999999' stroke-width='1'";
    put_sample(
        out,
        row_at(frame, 20, 5),
        tie,
        b"happened before, and no arrow shows it",
    )
}

// How many of the events are shown, and how many processes have none of these.
fn note_text(alloc: Global, shown: usize, events: usize, without: u64) -> Result<Bytes, NoMemory>
    ensures { IfOk result (λ note. note ≡ note_text shown events without) }
{
    let mut note = Bytes::new(alloc);
    note.extend_from_slice(b"shown: ")?;
    put_u64(&mut note, shown as u64)?;
    note.extend_from_slice(b" of ")?;
    put_u64(&mut note, events as u64)?;
    note.extend_from_slice(b" events; .. N .. are N others; processes without a shown event: ")?;
    put_u64(&mut note, without)?;
    Ok(note)
}

// Whether all events are shown, and no process is left out.
fn are_all(shown: usize, events: usize, without: u64) -> bool
    ensures { result ≡ are_all shown events without }
{
    shown == events && without == 0
}

// Appends that, if not all are shown.
fn put_note_text(
    out: &mut Bytes,
    alloc: Global,
    shown: usize,
    events: usize,
    without: u64,
) -> Result<(), NoMemory>
    ensures { OnOk result (out.new ≡ out.old ++ note_drawn shown events without) }
{
    if are_all(shown, events, without) {
        return Ok(());
    }
    let note = note_text(alloc, shown, events, without)?;
    put_text(
        out,
        Point { x: 20, y: 84 },
        b" font-size='12' fill='#555555'",
        note.as_slice(),
    )
}

/// Appends how much of the run is shown, if not all is.
pub fn put_note(
    out: &mut Bytes,
    alloc: Global,
    states: &States,
    columns: &Columns,
    shown: &[EventId],
    events: &[EventId],
) -> Result<(), NoMemory>
    requires shown { shown.now ≡ shown_events (map length states.now.events) columns.now }
    requires events { events.now ≡ places (map length states.now.events) }
    ensures { OnOk result (out.new ≡ out.old ++ note_of states.now columns.now) }
{
    put_note_text(out, alloc, shown.len(), events.len(), columns.without())
}

// What is drawn of a witness, in words.
fn meaning_of(witness: &Witness) -> &'static [u8]
    ensures { result.now ≡ meaning_of witness.now }
{
    match witness {
        Witness::Nothing => b"there is nothing to show",
        Witness::Reach(_) => b"goal of the numbered steps: the operand holds there",
        Witness::Against(_) => b"goal of the numbered steps: the operand does not hold there",
        Witness::Always(_) => {
            b"goal of the numbered steps: the operand holds at each cut on the way"
        }
        Witness::StuckStart => b"the operand does not hold where nothing has happened yet",
        Witness::StuckFinish => b"the operand does not hold at the end",
        Witness::StuckPair(_, _) => {
            b"rings: a cut where the operand holds has both events or neither"
        }
    }
}

/// What is drawn of a witness, in words, with its numbers.
pub fn witness_meaning(alloc: Global, witness: &WitnessText) -> Result<Bytes, NoMemory>
    ensures { IfOk result (λ meaning. meaning ≡ witness_meaning witness.now) }
{
    let mut meaning = Bytes::new(alloc);
    meaning.extend_from_slice(b"witness ")?;
    put_u64(&mut meaning, u64::from(witness.disjunct))?;
    meaning.push(b'.')?;
    put_u64(&mut meaning, u64::from(witness.part))?;
    meaning.extend_from_slice(b", ")?;
    meaning.extend_from_slice(meaning_of(&witness.witness))?;
    Ok(meaning)
}
