//! The greatest cut that is logged whole.
ghost use Rattle.std.specs.Prelude.{◌≡◌, ◌||◌, length, map, IfOk};
ghost use Rattle.vector_clock.specs.Events.{Events, EventStands, no_events};
ghost use Rattle.torn_log.specs.Items.{with_item, with_items, ItemStands, ItemsStand};
ghost use Rattle.torn_log.specs.Counts.{HasRoom, Grows};
ghost use Rattle.torn_log.specs.Needs.{need};
ghost use Rattle.torn_log.specs.Sends.{HasSends};
ghost use Rattle.torn_log.specs.Torn.{IsKept};
ghost use Rattle.torn_log.specs.Rounds.{BoundsAll, IsLowered, HasLooked, IsRound};

use crate::counting::{count, count_all, zeros};
use crate::part::Part;
use crate::sends::Sends;
use event_log::Event;
use pota_base::{List, NoMemory};
use std::alloc::Global;

// Lowers the cut below the event, which stands behind so many of each process, where the cut lacks
// what the event stands on. Tells whether it did.
fn lower(sends: &Sends, cut: &mut List<usize>, counts: &List<usize>, event: &Event) -> bool
    requires stands { EventStands (length cut.old) event.now }
    requires counts { length counts.now ≡ length cut.old }
    ensures long { length cut.new ≡ length cut.old }
    ensures lowered { (events : Events) → HasSends sends.now events → BoundsAll events cut.old
        → IsLowered (need events event.now) counts.now event.now.process cut.old cut.new result }
{
    let process = event.process as usize;
    let count = counts.as_slice()[process];
    if count >= cut.as_slice()[process] {
        return false;
    }
    if sends.has_needs(event, cut.as_slice()) {
        return false;
    }
    let _ = cut.replace(process, count);
    true
}

// Looks at one part more.
fn look<P: Part>(sends: &Sends, cut: &mut List<usize>, counts: &List<usize>, part: &P) -> bool
    requires stands { ItemStands (length cut.old) (P.item part.now) }
    requires counts { length counts.now ≡ length cut.old }
    ensures long { length cut.new ≡ length cut.old }
    ensures looked { (events before : Events) → HasSends sends.now events → BoundsAll events cut.old
        → counts.now ≡ map length before → Grows (with_item before (P.item part.now)) events
        → HasLooked events before (P.item part.now) cut.old cut.new result }
{
    match part.event() {
        Some(event) => lower(sends, cut, counts, event),
        None => false,
    }
}

fn either(one: bool, other: bool) -> bool
    ensures { result ≡ (one || other) }
{
    one || other
}

// Looks at all parts, and tells whether the cut was lowered.
fn look_at_all<P: Part>(
    alloc: Global,
    sends: &Sends,
    cut: &mut List<usize>,
    parts: &[P],
) -> Result<bool, NoMemory>
    requires { ItemsStand (length cut.old) (map P.item parts.now) }
    ensures { IfOk result (IsRound sends.now
        (with_items (no_events (length cut.old)) (map P.item parts.now)) cut.old cut.new) }
{
    // So its length is one that a word holds.
    let _len = parts.len();
    let procs = cut.len();
    let mut counts = zeros(alloc, procs)?;
    let mut lowered = false;
    for part in parts {
        let looked = look(sends, cut, &counts, part);
        let both = either(lowered, looked);
        lowered = both;
        count(&mut counts, part);
    }
    Ok(lowered)
}

/// The greatest cut of the parts' events that has all that its events stand on.
pub fn greatest_cut<P: Part>(
    alloc: Global,
    parts: &[P],
    procs: usize,
) -> Result<List<usize>, NoMemory>
    requires { ItemsStand procs (map P.item parts.now) }
    ensures { IfOk result (IsKept (with_items (no_events procs) (map P.item parts.now))) }
{
    let sends = Sends::of(alloc, parts, procs)?;
    let mut cut = count_all(alloc, parts, procs)?;
    'rounds: loop {
        let lowered = look_at_all(alloc, &sends, &mut cut, parts)?;
        if !lowered {
            return Ok(cut);
        }
    }
}
