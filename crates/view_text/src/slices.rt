//! The rows of a slice.
ghost use Rattle.std.specs.Prelude.{◌≡◌, ◌<◌, ◌++◌, Some, length, map, OnOk, IfSome};
ghost use Rattle.std.specs.List.{AllByRecursion};
ghost use Rattle.report_lines.specs.Spelling.{CutFits, EdgeFits, BoundsFit};
ghost use Rattle.report.specs.Spelling.{SliceFits};
ghost use Rattle.view_text.specs.Text.{counted, share_row, bounds_row, bounds_rows, edge_row};
ghost use Rattle.view_text.specs.Text.{more_edges, edge_rows, slice_rows};

use crate::events::put_lined;
use cut_lattice::Cut;
use event_log::{States, put_clock};
use pota_base::{Bytes, NoMemory, put_u64};
use report::SliceText;
use slice_graph::Edge;
use view_parts::name_at;

/// The most edges that are told of.
const MOST_EDGES: usize = 40;

// Appends a number and what it counts.
fn put_count(out: &mut Bytes, count: u32, what: &[u8]) -> Result<(), NoMemory>
    ensures { OnOk result (out.new ≡ out.old ++ counted count what.now) }
{
    put_u64(out, u64::from(count))?;
    out.extend_from_slice(what)
}

// Appends how many events of a process each cut of the slice has, some have and none has.
fn put_share_row(
    out: &mut Bytes,
    states: &States,
    low: &Cut,
    high: &Cut,
    process: u32,
) -> Result<(), NoMemory>
    requires process { process < length states.now.events }
    requires low { CutFits (map length states.now.events) low.now }
    requires high { CutFits (map length states.now.events) high.now }
    ensures { OnOk result (out.new ≡ out.old ++ share_row states.now low.now high.now process) }
{
    out.extend_from_slice(b"  ")?;
    out.extend_from_slice(name_at(states.header().procs.as_slice(), process))?;
    out.extend_from_slice(b": ")?;
    let below = low.get(process);
    let most = high.get(process);
    put_count(out, below, b" below, ")?;
    put_count(out, most.saturating_sub(below), b" between, ")?;
    let all = states.shape().len_of(process);
    put_count(out, all.saturating_sub(most), b" beyond\n")
}

// Appends the line of the two bounds.
fn put_bounds_row(out: &mut Bytes, low: &Cut, high: &Cut) -> Result<(), NoMemory>
    ensures { OnOk result (out.new ≡ out.old ++ bounds_row low.now high.now) }
{
    out.extend_from_slice(b"slice: from ")?;
    put_clock(out, low.as_slice())?;
    out.extend_from_slice(b" to ")?;
    put_clock(out, high.as_slice())?;
    out.push(b'\n')
}

// Appends the bounds, and the share of each process.
fn put_shares(out: &mut Bytes, states: &States, low: &Cut, high: &Cut) -> Result<(), NoMemory>
    requires low { CutFits (map length states.now.events) low.now }
    requires high { CutFits (map length states.now.events) high.now }
    ensures { OnOk result (out.new
        ≡ out.old ++ bounds_rows states.now (Some (low.now, high.now))) }
{
    put_bounds_row(out, low, high)?;
    for process in 0..states.header().procs.len() as u32 {
        put_share_row(out, states, low, high, process)?;
    }
    Ok(())
}

// Appends what the bounds of a slice say.
fn put_bounds(out: &mut Bytes, states: &States, bounds: &Option<(Cut, Cut)>) -> Result<(), NoMemory>
    requires { BoundsFit (map length states.now.events) bounds.now }
    ensures { OnOk result (out.new ≡ out.old ++ bounds_rows states.now bounds.now) }
{
    match bounds {
        None => out.extend_from_slice(b"slice: no cut\n"),
        Some((low, high)) => put_shares(out, states, low, high),
    }
}

// Appends what an edge says.
fn put_edge_row(out: &mut Bytes, states: &States, edge: Edge) -> Result<(), NoMemory>
    requires { EdgeFits (map length states.now.events) edge }
    ensures { OnOk result (out.new ≡ out.old ++ edge_row states.now edge) }
{
    out.extend_from_slice(b"  a cut with ")?;
    put_lined(out, states, edge.effect)?;
    out.extend_from_slice(b" has ")?;
    put_lined(out, states, edge.cause)?;
    out.push(b'\n')
}

// Appends how many edges there are beside those that are told of.
fn put_more_edges(out: &mut Bytes, count: usize) -> Result<(), NoMemory>
    ensures { OnOk result (out.new ≡ out.old ++ more_edges count) }
{
    if count == 0 {
        return Ok(());
    }
    out.extend_from_slice(b"  and ")?;
    put_u64(out, count as u64)?;
    out.extend_from_slice(b" edges more\n")
}

// Appends what the edges say.
fn put_edge_rows(out: &mut Bytes, states: &States, edges: &[Edge]) -> Result<(), NoMemory>
    requires { AllByRecursion (EdgeFits (map length states.now.events)) edges.now }
    ensures { OnOk result (out.new ≡ out.old ++ edge_rows states.now edges.now) }
{
    let shown = &edges[..MOST_EDGES.min(edges.len())];
    for edge in shown {
        put_edge_row(out, states, *edge)?;
    }
    put_more_edges(out, edges.len().saturating_sub(MOST_EDGES))
}

// Appends what a slice says.
fn put_slice(out: &mut Bytes, states: &States, slice: &SliceText) -> Result<(), NoMemory>
    requires { SliceFits (map length states.now.events) slice.now }
    ensures { OnOk result (out.new ≡ out.old ++ slice_rows states.now (Some slice.now)) }
{
    out.push(b'\n')?;
    put_bounds(out, states, &slice.bounds)?;
    put_edge_rows(out, states, slice.edges.as_slice())
}

/// Appends what the slice says, where one was asked for.
pub fn put_slice_rows(
    out: &mut Bytes,
    states: &States,
    slice: &Option<SliceText>,
) -> Result<(), NoMemory>
    requires { IfSome slice.now (SliceFits (map length states.now.events)) }
    ensures { OnOk result (out.new ≡ out.old ++ slice_rows states.now slice.now) }
{
    match slice {
        None => Ok(()),
        Some(slice) => put_slice(out, states, slice),
    }
}
