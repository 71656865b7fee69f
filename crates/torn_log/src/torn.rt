//! The items of a torn log up to the greatest cut that is logged whole.

ghost use Rattle.std.specs.Prelude.{◌≡◌, ◌++◌, ◌∷◌, [], length, map, IfOk, OnOk, if◌then◌else◌};
ghost use Rattle.event_log.specs.FittingItems.{FitFirst};
ghost use Rattle.event_log.specs.LogText.{log_items};
ghost use Rattle.vector_clock.specs.Events.{Events, no_events};
ghost use Rattle.torn_log.specs.Counts.{HasRoom};
ghost use Rattle.torn_log.specs.Items.{procs_in, ItemStands, ItemsStand, stays};
ghost use Rattle.torn_log.specs.Items.{kept_from, differences};
ghost use Rattle.torn_log.specs.Torn.{IsTornOf, AreUpto};
ghost use Rattle.torn_log.specs.TornLogs.{as_torn};

use crate::counting::{count, count_all, zeros};
use crate::cutting::greatest_cut;
use crate::part::Part;
use event_log::{Item, Log};
use pota_base::{List, NoMemory};
use std::alloc::Global;

/// A beginning of a run of which everything is logged.
#[derive(Debug, Drop)]
pub struct Torn {
    /// The items of its log.
    pub items: List<Item>,
    /// For each process, how many of its logged events stand on what isn't logged.
    pub left_out: List<usize>,
}

/// The same of a log of one batch.
#[derive(Debug, Drop)]
pub struct TornLog {
    pub log: Log,
    /// For each process, how many of its logged events stand on what isn't logged.
    pub left_out: List<usize>,
}

// Parts up to a cut.
#[derive(Drop)]
struct Upto<P> {
    parts: List<P>,
    left_out: List<usize>,
}

// How many processes the header has, which is the first item.
fn procs_in(items: &[Item]) -> usize
    ensures { result ≡ procs_in items.now }
{
    match items {
        [Item::Header(header), ..] => header.procs.len(),
        _ => 0,
    }
}

// Whether a part behind so many events of each process stays.
fn stays<P: Part>(cut: &List<usize>, counts: &List<usize>, part: &P) -> bool
    requires stands { ItemStands (length counts.now) (P.item part.now) }
    requires counts { length counts.now ≡ length cut.now }
    ensures { (before : Events) → counts.now ≡ map length before
        → result ≡ stays cut.now before (P.item part.now) }
{
    match part.event() {
        Some(event) => {
            let process = event.process as usize;
            counts.as_slice()[process] < cut.as_slice()[process]
        }
        None => true,
    }
}

fn keep<P: Part>(kept: &mut List<P>, stays: bool, part: P) -> Result<(), NoMemory>
    ensures { OnOk result (kept.new ≡ kept.old ++ (if stays then part ∷ [] else [])) }
{
    if stays {
        kept.push(part)?;
    }
    Ok(())
}

// The parts without the events that the cut hasn't.
fn parts_upto<P: Part>(
    alloc: Global,
    parts: List<P>,
    cut: &List<usize>,
) -> Result<List<P>, NoMemory>
    requires { ItemsStand (length cut.now) (map P.item parts) }
    ensures { IfOk result (λ kept. map P.item kept
        ≡ kept_from cut.now (no_events (length cut.now)) (map P.item parts)) }
{
    // So its length is one that a word holds.
    let _len = parts.len();
    let procs = cut.len();
    let mut counts = zeros(alloc, procs)?;
    let mut kept = List::new(alloc);
    let mut rest = parts.into_vec().into_iter();
    while let Some(part) = rest.next() {
        let stay = stays(cut, &counts, &part);
        count(&mut counts, &part);
        keep(&mut kept, stay, part)?;
    }
    Ok(kept)
}

// Each count without that of the cut.
fn differences(
    alloc: Global,
    counts: &List<usize>,
    cut: &List<usize>,
) -> Result<List<usize>, NoMemory>
    requires counts { length counts.now ≡ length cut.now }
    ensures { IfOk result (λ left. left ≡ differences counts.now cut.now) }
{
    let mut left = List::new(alloc);
    for i in 0..cut.len() {
        left.push(counts.as_slice()[i].saturating_sub(cut.as_slice()[i]))?;
    }
    Ok(left)
}

// The parts up to the greatest cut of their events of which everything is logged.
fn upto_greatest<P: Part>(alloc: Global, procs: usize, parts: List<P>) -> Result<Upto<P>, NoMemory>
    requires { ItemsStand procs (map P.item parts) }
    ensures { IfOk result (λ upto. AreUpto procs (map P.item parts) (map P.item upto.parts)
        upto.left_out) }
{
    let all = parts.as_slice();
    let cut = greatest_cut(alloc, all, procs)?;
    let counts = count_all(alloc, all, procs)?;
    let left_out = differences(alloc, &counts, &cut)?;
    let parts = parts_upto(alloc, parts, &cut)?;
    Ok(Upto { parts, left_out })
}

/// The items of a log up to the greatest cut of its run of which everything is logged.
pub fn whole_beginning(alloc: Global, items: List<Item>) -> Result<Torn, NoMemory>
    requires { FitFirst items }
    ensures beginning { IfOk result (IsTornOf items) }
    ensures fit { IfOk result (λ torn. FitFirst torn.items) }
{
    let procs = procs_in(items.as_slice());
    let Upto { parts, left_out } = upto_greatest(alloc, procs, items)?;
    Ok(Torn {
        items: parts,
        left_out,
    })
}

/// The same of a log of one batch, without a list of its items.
pub fn whole_beginning_of(alloc: Global, log: Log) -> Result<TornLog, NoMemory>
    requires batch { length log.batches ≡ 1 }
    requires fits { FitFirst (log_items log) }
    ensures beginning { IfOk result (λ torn. IsTornOf (log_items log) (as_torn torn)) }
    ensures fit { IfOk result (λ torn. FitFirst (log_items torn.log)) }
    ensures batch { IfOk result (λ torn. length torn.log.batches ≡ 1) }
{
    let Log { header, batches } = log;
    let mut batches = batches.into_vec();
    let Some(batch) = batches.pop() else {
        unreachable!()
    };
    let Upto { parts, left_out } = upto_greatest(alloc, header.procs.len(), batch)?;
    batches.push(parts)?;
    Ok(TornLog {
        log: Log {
            header,
            batches: List::from_vec(batches),
        },
        left_out,
    })
}
