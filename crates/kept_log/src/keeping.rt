//! A log's kept events.
ghost use Rattle.std.specs.Prelude.{◌≡◌, ◌++◌, [], slice_index_or, IfOk};
ghost use Rattle.clock_laws.specs.Joined.{as_one};
ghost use Rattle.kept_log.specs.Kept.{kept_log};
ghost use Rattle.kept_log.specs.Keeping.{CanBeKept};
ghost use Rattle.kept_log.specs.Named.{names_of};
ghost use Rattle.kept_log.specs.inside.Counted.{clock_by, event_by, events_by};

use crate::counts::all_counts;
use crate::names::numbers_in;
use crate::numbers::Numbers;
use crate::variables::{assigns_by, header_by};
use event_log::{Event, Kind, Log};
use kept_names::Names;
use pota_base::{List, NoMemory};
use std::alloc::Global;

fn row_at(counts: &[List<u32>], process: usize) -> &[u32]
    ensures row { result.now ≡ slice_index_or counts.now process [] }
{
    match counts.get(process) {
        Some(row) => row.as_slice(),
        None => &[],
    }
}

fn count_in(row: &[u32], events: u32) -> u32
    ensures { result ≡ slice_index_or row.now events 0 }
{
    match row.get(events as usize) {
        Some(count) => *count,
        None => 0,
    }
}

fn clock_by(alloc: Global, counts: &[List<u32>], clock: &[u32]) -> Result<List<u32>, NoMemory>
    ensures { IfOk result (λ kept. kept ≡ clock_by counts.now 0 clock.now) }
{
    let mut kept = List::with_capacity(alloc, clock.len())?;
    for j in 0..clock.len() {
        kept.push(count_in(row_at(counts, j), clock[j]))?;
    }
    Ok(kept)
}

fn event_by(
    alloc: Global,
    numbers: &Numbers,
    counts: &[List<u32>],
    event: &Event,
) -> Result<Event, NoMemory>
    ensures { IfOk result (λ kept. kept ≡ event_by numbers.now counts.now event.now) }
{
    let clock = clock_by(alloc, counts, event.clock.as_slice())?;
    let assigns = assigns_by(alloc, numbers, event.process, event.assigns.as_slice())?;
    let kind = if numbers.is_open(event) {
        event.kind
    } else {
        Kind::Internal
    };
    Ok(Event {
        process: event.process,
        line: event.line,
        clock,
        kind,
        assigns,
    })
}

// The kept ones of a batch, behind those of the batches before it.
fn with_kept(
    alloc: Global,
    numbers: &Numbers,
    counts: &[List<u32>],
    mut kept: List<Event>,
    batch: &[Event],
) -> Result<List<Event>, NoMemory>
    ensures { IfOk result (λ all. all ≡ kept ++ events_by numbers.now counts.now batch.now) }
{
    for event in batch {
        if numbers.is_kept(event) {
            let one = event_by(alloc, numbers, counts, event)?;
            kept.push(one)?;
        }
    }
    Ok(kept)
}

// The kept ones of all events, as one batch.
fn kept_events(
    alloc: Global,
    numbers: &Numbers,
    counts: &[List<u32>],
    batches: &[List<Event>],
) -> Result<List<Event>, NoMemory>
    ensures { IfOk result (λ all. all ≡ events_by numbers.now counts.now (as_one batches.now)) }
{
    let mut kept = List::new(alloc);
    for batch in batches {
        kept = with_kept(alloc, numbers, counts, kept, batch.as_slice())?;
    }
    Ok(kept)
}

/// The log folded to what is named, in memory of its own: its kept events, and the variables that
/// are named or of named processes. A clock that is left out is filled in
/// before.
pub fn keep(alloc: Global, log: &Log, names: &Names) -> Result<Log, NoMemory>
    requires { CanBeKept log.now }
    ensures is { IfOk result (λ kept. kept ≡ kept_log log.now (names_of names.now)) }
    ensures again { IfOk result CanBeKept }
{
    let numbers = numbers_in(alloc, &log.header, names)?;
    let processes = log.header.procs.len();
    let batches = log.batches.as_slice();
    let counts = all_counts(alloc, &numbers, batches, processes)?;
    let events = kept_events(alloc, &numbers, counts.as_slice(), batches)?;
    let header = header_by(alloc, &numbers, &log.header)?;
    let mut batches = List::new(alloc);
    batches.push(events)?;
    Ok(Log { header, batches })
}
