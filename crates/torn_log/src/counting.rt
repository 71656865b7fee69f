//! How many events of each process were passed.
ghost use Rattle.std.specs.Prelude.{◌≡◌, ◌+◌, ◌^◌, ◌<◌, length, map, set, replicate, get_or, IfOk};
ghost use Rattle.vector_clock.specs.Events.{Events, no_events};
ghost use Rattle.torn_log.specs.Items.{with_item, with_items, ItemStands, ItemsStand};
ghost use Rattle.torn_log.specs.Counts.{HasRoom};

use crate::part::Part;
use pota_base::{List, NoMemory};
use std::alloc::Global;

/// So many zeros.
pub fn zeros(alloc: Global, count: usize) -> Result<List<usize>, NoMemory>
    ensures { IfOk result (λ zeros. zeros ≡ replicate count 0) }
{
    let items = vec![in alloc; 0usize; count]?;
    Ok(List::from_vec(items))
}

// One more at this place.
fn raise(counts: &mut List<usize>, place: usize)
    requires there { place < length counts.old }
    requires room { get_or counts.old place 0 + 1 < 2 ^ 64 }
    ensures { counts.new ≡ set counts.old place (get_or counts.old place 0 + 1) }
{
    let count = counts.as_slice()[place];
    let _ = counts.replace(place, count + 1);
}

/// Counts the event, if the part is one.
pub fn count<P: Part>(counts: &mut List<usize>, part: &P)
    requires stands { ItemStands (length counts.old) (P.item part.now) }
    requires room { HasRoom counts.old }
    ensures { (events : Events) → counts.old ≡ map length events
        → counts.new ≡ map length (with_item events (P.item part.now)) }
{
    if let Some(event) = part.event() {
        raise(counts, event.process as usize);
    }
}

/// How many events each of so many processes has.
pub fn count_all<P: Part>(alloc: Global, parts: &[P], procs: usize) -> Result<List<usize>, NoMemory>
    requires { ItemsStand procs (map P.item parts.now) }
    ensures { IfOk result (λ counts. counts
        ≡ map length (with_items (no_events procs) (map P.item parts.now))) }
{
    // So its length is one that a word holds.
    let _len = parts.len();
    let mut counts = zeros(alloc, procs)?;
    for part in parts {
        count(&mut counts, part);
    }
    Ok(counts)
}
