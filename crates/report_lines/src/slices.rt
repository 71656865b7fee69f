//! The lines of a slice.

ghost use Rattle.std.specs.Prelude.{◌≡◌, ◌≤◌, length, IfOk};
ghost use Rattle.pota_base.specs.Limits.{most_processes};
ghost use Rattle.report_lines.specs.Reading.{bounds_in, slice_in, edge_in, step_in};

use crate::parts::{event_at, within_at};
use cut_lattice::Cut;
use log_lines::text_at;
use pota_base::{EventId, NoMemory};
use pota_names::Name;
use slice_graph::Edge;
use std::alloc::Global;

// Two cuts parted by a space.
#[tactic(auto, unfolding(crate::specs::Reading::bounds_in))]
fn bounds_in(
    alloc: Global,
    lengths: &Cut,
    bytes: &[u8],
) -> Result<Option<Option<(Cut, Cut)>>, NoMemory>
    requires { length lengths.now ≤ most_processes }
    ensures { IfOk result (λ bounds. bounds ≡ bounds_in lengths.now bytes.now) }
{
    let Some((low, rest)) = within_at(alloc, lengths, bytes)? else {
        return Ok(None);
    };
    let Some(rest) = text_at(b" ", rest) else {
        return Ok(None);
    };
    match within_at(alloc, lengths, rest)? {
        Some((high, [])) => Ok(Some(Some((low, high)))),
        _ => Ok(None),
    }
}

/// The bottom and the top of a slice that the line spells, or `Some(None)` where it says that the
/// slice is empty.
#[tactic(auto, unfolding(crate::specs::Reading::slice_in))]
pub fn read_slice(
    alloc: Global,
    lengths: &Cut,
    line: &[u8],
) -> Result<Option<Option<(Cut, Cut)>>, NoMemory>
    requires { length lengths.now ≤ most_processes }
    ensures { IfOk result (λ bounds. bounds ≡ slice_in lengths.now line.now) }
{
    let Some(rest) = text_at(b"slice ", line) else {
        return Ok(None);
    };
    if rest == b"empty".as_slice() {
        return Ok(Some(None));
    }
    bounds_in(alloc, lengths, rest)
}

/// The edge that the line spells.
#[tactic(auto, unfolding(crate::specs::Reading::edge_in))]
pub fn read_edge(procs: &[Name], lengths: &Cut, line: &[u8]) -> Option<Edge>
    requires few { length procs.now ≤ most_processes }
    requires width { length lengths.now ≡ length procs.now }
    ensures { result ≡ edge_in procs.now lengths.now line.now }
{
    let rest = text_at(b"edge", line)?;
    let (cause, rest) = event_at(procs, lengths, rest)?;
    let rest = text_at(b" ->", rest)?;
    let (effect, rest) = event_at(procs, lengths, rest)?;
    if !rest.is_empty() {
        return None;
    }
    Some(Edge { cause, effect })
}

/// The step of a path that the line spells.
#[tactic(auto, unfolding(crate::specs::Reading::step_in))]
pub fn read_step(procs: &[Name], lengths: &Cut, line: &[u8]) -> Option<EventId>
    requires few { length procs.now ≤ most_processes }
    requires width { length lengths.now ≡ length procs.now }
    ensures { result ≡ step_in procs.now lengths.now line.now }
{
    let rest = text_at(b"step", line)?;
    let (event, rest) = event_at(procs, lengths, rest)?;
    if !rest.is_empty() {
        return None;
    }
    Some(event)
}
