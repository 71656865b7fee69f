//! The whole picture.
ghost use Rattle.std.specs.Prelude.{◌≡◌, ◌<◌, ◌≤◌, ◌^◌, ◌++◌, false, length, map, OnOk, IfOk};
ghost use Rattle.std.specs.Prelude.{IfSome};
ghost use Rattle.std.specs.List.{AllByRecursion};
ghost use Rattle.std.specs.Option.{option_copied};
ghost use Rattle.pota_base.specs.Shape.{HasEvent};
ghost use Rattle.pota_base.specs.Limits.{most_processes};
ghost use Rattle.report.specs.Spelling.{IsWellFormed};
ghost use Rattle.vector_clock.specs.Events.{clocks_of};
ghost use Rattle.view_parts.specs.Each.{places};
ghost use Rattle.view_parts.specs.Parts.{IsReportOf};
ghost use Rattle.view_picture.specs.Choice.{is_wanted};
ghost use Rattle.view_picture.specs.Columns.{AreColumns};
ghost use Rattle.view_picture.specs.Shown.{shown_events};
ghost use Rattle.view_picture.specs.Ties.{ties_of};
ghost use Rattle.view_picture.specs.inside.Drawing.{HasFewProcesses};
ghost use Rattle.view_picture.specs.inside.Placing.{RowsFit};
ghost use Rattle.view_picture.specs.Picture.{bounds_drawn, slice_drawn, one_drawn};
ghost use Rattle.view_picture.specs.Picture.{run_drawn, report_drawn, meaning_drawn, body};
ghost use Rattle.view_picture.specs.Picture.{picture, IsPictureOf};

use crate::arrows::{put_arrows, put_ties};
use crate::choice::{Chooser, all_events, choice_of};
use crate::columns::{Columns, columns_of};
use crate::edges::put_edges;
use crate::frame::Frame;
use crate::heading::put_heading;
use crate::lanes::put_lanes;
use crate::left_out::put_left_out;
use crate::legend::{
    put_edges_legend, put_legend, put_note, put_sample, put_slice_legend, put_ties_legend,
    put_told, row_at, witness_meaning,
};
use crate::lines::{GREATEST_SHIFT, LEAST_SHIFT, put_cut, put_witness};
use crate::lost::put_lost;
use crate::marks::{Marked, put_marks};
use crate::numbers::put_numbers;
use crate::ties::{shown_events, ties_of};
use crate::told::{edges_of, first_drawn, top_of};
use cut_lattice::Cut;
use pota_base::{Bytes, EventId, NoMemory};
use rctl_lexer::lex;
use report::{Report, SliceText, WitnessText};
use slice_graph::Edge;
use std::alloc::Global;
use trace_growth::Trace;
use view_parts::Extent;

// Appends the bounds of a slice, and what their lines mean.
fn put_both(
    out: &mut Bytes,
    columns: &Columns,
    frame: &Frame,
    low: &Cut,
    high: &Cut,
) -> Result<(), NoMemory>
    requires low { length low.now ≤ most_processes }
    requires high { length high.now ≤ most_processes }
    requires height { frame.now.height < 2 ^ 40 }
    ensures { OnOk result (out.new
        ≡ out.old ++ bounds_drawn frame.now columns.now (Some (low.now, high.now))) }
{
    let least = b" stroke='#7a3db8' stroke-width='2' stroke-dasharray='8 4'";
    let greatest = b" stroke='#7a3db8' stroke-width='2' stroke-dasharray='2 3'";
    put_cut(out, columns, frame, low, LEAST_SHIFT, least)?;
    put_cut(out, columns, frame, high, GREATEST_SHIFT, greatest)?;
    put_slice_legend(out, frame)
}

// Appends the bounds of the slice, where one was asked for.
fn put_slice(
    out: &mut Bytes,
    columns: &Columns,
    frame: &Frame,
    slice: &Option<SliceText>,
) -> Result<(), NoMemory>
    requires bounds { IfSome slice.now (λ s. IfSome s.bounds
        (λ bounds. (length bounds.0 ≤ most_processes) × (length bounds.1 ≤ most_processes))) }
    requires height { frame.now.height < 2 ^ 40 }
    ensures { OnOk result (out.new ≡ out.old ++ slice_drawn frame.now columns.now slice.now) }
{
    match slice {
        None => Ok(()),
        Some(slice) => match &slice.bounds {
            None => put_told(out, row_at(frame, 300, 0), 0, b"slice empty"),
            Some((low, high)) => put_both(out, columns, frame, low, high),
        },
    }
}

// Appends the witness that is drawn, if there is one.
fn put_one(
    out: &mut Bytes,
    alloc: Global,
    columns: &Columns,
    frame: &Frame,
    shown: Option<&WitnessText>,
) -> Result<(), NoMemory>
    requires few { IfSome (option_copied shown) (λ w. HasFewProcesses w.witness) }
    requires height { frame.now.height < 2 ^ 40 }
    ensures { OnOk result (out.new
        ≡ out.old ++ one_drawn frame.now columns.now (option_copied shown.entry)) }
{
    match shown {
        None => Ok(()),
        Some(witness) => {
            put_witness(out, alloc, columns, frame, &witness.witness)?;
            let meaning = witness_meaning(alloc, witness)?;
            put_sample(
                out,
                row_at(frame, 20, 3),
                b" stroke='#b35900' stroke-width='2.5'",
                meaning.as_slice(),
            )
        }
    }
}

// A run, as much of it as is shown, and where it stands.
#[derive(Clone, Copy)]
struct Shown<'a> {
    alloc: Global,
    trace: &'a Trace,
    columns: &'a Columns,
    frame: &'a Frame,
    /// All events of the run.
    events: &'a [EventId],
    /// Those that are shown.
    shown: &'a [EventId],
}

// Appends the lanes and what runs between them.
fn put_run(out: &mut Bytes, run: &Shown<'_>, ties: &[Edge]) -> Result<(), NoMemory>
    requires here { run.now.trace.now.spent ≡ false }
    requires fit { RowsFit (clocks_of run.now.trace.now.states.events) run.now.columns.now }
    requires there { AllByRecursion (HasEvent (map length run.now.trace.now.states.events))
        run.now.shown.now }
    requires shown { run.now.shown.now
        ≡ shown_events (map length run.now.trace.now.states.events) run.now.columns.now }
    requires ties { ties.now ≡ ties_of run.now.trace.now.states run.now.columns.now }
    ensures { OnOk result (out.new ≡ out.old ++ run_drawn run.now.trace.now.states
        run.now.frame.now run.now.columns.now) }
{
    let states = run.trace.states();
    put_lanes(out, states, run.columns, run.frame)?;
    put_ties(out, run.columns, run.frame, ties)?;
    put_arrows(out, run.trace, run.columns, run.frame, run.shown)?;
    put_lost(out, states, run.columns, run.frame, run.shown)?;
    put_numbers(out, run.alloc, run.trace, run.columns, run.frame, run.shown)?;
    put_left_out(out, run.alloc, states, run.columns, run.frame, run.shown)
}

// Appends what a report says of the run, and the marks above that.
fn put_report(out: &mut Bytes, run: &Shown<'_>, report: &Report) -> Result<(), NoMemory>
    requires here { run.now.trace.now.spent ≡ false }
    requires formed { IsWellFormed report.now }
    requires fits { IsReportOf run.now.trace.now.states report.now }
    requires height { run.now.frame.now.height < 2 ^ 40 }
    requires there { AllByRecursion (HasEvent (map length run.now.trace.now.states.events))
        run.now.shown.now }
    requires shown { run.now.shown.now
        ≡ shown_events (map length run.now.trace.now.states.events) run.now.columns.now }
    ensures { OnOk result (out.new ≡ out.old ++ report_drawn run.now.trace.now.states
        run.now.frame.now run.now.columns.now report.now) }
{
    let marked = Marked {
        alloc: run.alloc,
        states: run.trace.states(),
        columns: run.columns,
        frame: run.frame,
        top: top_of(&report.slice),
    };
    put_edges(out, run.columns, run.frame, edges_of(&report.slice))?;
    put_slice(out, run.columns, run.frame, &report.slice)?;
    put_one(
        out,
        run.alloc,
        run.columns,
        run.frame,
        first_drawn(report.witnesses.as_slice()),
    )?;
    put_marks(out, &marked, run.shown)
}

// Appends what all that means, and how much is shown.
fn put_meaning(out: &mut Bytes, run: &Shown<'_>, edges: usize, ties: usize) -> Result<(), NoMemory>
    requires here { run.now.trace.now.spent ≡ false }
    requires height { run.now.frame.now.height < 2 ^ 40 }
    requires shown { run.now.shown.now
        ≡ shown_events (map length run.now.trace.now.states.events) run.now.columns.now }
    requires events { run.now.events.now ≡ places (map length run.now.trace.now.states.events) }
    ensures { OnOk result (out.new ≡ out.old ++ meaning_drawn run.now.trace.now.states
        run.now.frame.now run.now.columns.now edges ties) }
{
    put_legend(out, run.frame)?;
    put_edges_legend(out, run.alloc, run.frame, edges)?;
    put_ties_legend(out, run.frame, ties)?;
    put_note(
        out,
        run.alloc,
        run.trace.states(),
        run.columns,
        run.shown,
        run.events,
    )
}

// Appends what stands behind the heading.
fn put_body(out: &mut Bytes, run: &Shown<'_>, report: &Report) -> Result<(), NoMemory>
    requires here { run.now.trace.now.spent ≡ false }
    requires formed { IsWellFormed report.now }
    requires fits { IsReportOf run.now.trace.now.states report.now }
    requires height { run.now.frame.now.height < 2 ^ 40 }
    requires fit { RowsFit (clocks_of run.now.trace.now.states.events) run.now.columns.now }
    requires shown { run.now.shown.now
        ≡ shown_events (map length run.now.trace.now.states.events) run.now.columns.now }
    requires events { run.now.events.now ≡ places (map length run.now.trace.now.states.events) }
    ensures { OnOk result (out.new ≡ out.old ++ body run.now.trace.now.states
        run.now.frame.now run.now.columns.now report.now) }
{
    let ties = ties_of(run.alloc, run.trace, run.columns, run.shown)?;
    let edges = edges_of(&report.slice).len();
    let count = ties.len();
    put_run(out, run, ties.as_slice())?;
    put_report(out, run, report)?;
    put_meaning(out, run, edges, count)
}

// The columns of the events that are shown of a run by a report of it.
fn columns_by(
    alloc: Global,
    trace: &Trace,
    extent: Extent,
    report: &Report,
    events: &[EventId],
) -> Result<Columns, NoMemory>
    requires here { trace.now.spent ≡ false }
    requires formed { IsWellFormed report.now }
    requires fits { IsReportOf trace.now.states report.now }
    requires events { events.now ≡ places (map length trace.now.states.events) }
    ensures { IfOk result (AreColumns (clocks_of trace.now.states.events)
        (is_wanted trace.now.states extent report.now)) }
{
    let states = trace.states();
    let lexed = lex(alloc, report.formula.as_slice())?;
    let tokens = lexed.tokens.as_slice();
    let choice = choice_of(alloc, states, tokens, extent, report, events)?;
    let chooser = Chooser {
        states,
        tokens,
        choice: &choice,
    };
    let columns = columns_of(alloc, trace.order(), &chooser)?;
    Ok(columns)
}

/// The picture of a run by a report of it: one SVG image. It shows as much of the run as is asked
/// for.
pub fn view_picture(
    alloc: Global,
    trace: &Trace,
    extent: Extent,
    report: &Report,
) -> Result<Bytes, NoMemory>
    requires here { trace.now.spent ≡ false }
    requires formed { IsWellFormed report.now }
    requires fits { IsReportOf trace.now.states report.now }
    ensures { IfOk result (IsPictureOf trace.now.states extent report.now) }
{
    let events = all_events(alloc, trace.states())?;
    let columns = columns_by(alloc, trace, extent, report, events.as_slice())?;
    let shown = shown_events(alloc, &columns, events.as_slice())?;
    let frame = Frame::new(trace.states(), &columns, report);
    let run = Shown {
        alloc,
        trace,
        columns: &columns,
        frame: &frame,
        events: events.as_slice(),
        shown: shown.as_slice(),
    };
    let mut out = Bytes::new(alloc);
    put_heading(&mut out, alloc, &frame, report)?;
    put_body(&mut out, &run, report)?;
    out.extend_from_slice(b"</svg>\n")?;
    Ok(out)
}
