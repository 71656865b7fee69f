//! Where one process's counts reach another's.
ghost use Rattle.std.specs.Prelude.{◌≡◌, ℕ, ◌+◌, ◌^◌, ◌<◌, ◌≤◌, length, slice_index, IfOk};
ghost use Rattle.pota_base.specs.Limits.{most_events};
ghost use Rattle.channel_preds.specs.Channels.{first_reaching};
ghost use Rattle.channel_preds.specs.inside.Channels.{AreCounts};
ghost use Rattle.channel_preds.specs.Channels.{first_positions as first_positions_of};

use pota_base::{List, NoMemory};
use std::alloc::Global;

/// For each position of the leading process, the first one of the following process whose count,
/// with `extra`, has reached the leading count, with `more`, and one entry more, which is the last
/// one again.
///
/// Since the leading counts never fall, each search goes on where the last one ended: all of them
/// together pass the counts once.
pub fn first_positions(
    alloc: Global,
    leads: &[u32],
    more: u64,
    follows: &[u32],
    extra: u64,
) -> Result<List<u32>, NoMemory>
    requires leads { AreCounts leads.now }
    requires few_leads { length leads.now ≤ most_events + 1 }
    requires few_follows { length follows.now ≤ most_events + 1 }
    requires more { more ≤ 2 ^ 63 }
    requires extra { extra ≤ 2 ^ 63 }
    ensures { IfOk result (λ t. t ≡ first_positions_of leads.now more follows.now extra) }
{
    let mut table = Vec::with_capacity(alloc, leads.len() + 1)?;
    let mut place = 0;
    for &lead in leads {
        place = first_from(follows, extra, lead as u64 + more, place);
        table.push(place as u32)?;
    }
    let last = place as u32;
    table.push(last)?;
    Ok(List::from_vec(table))
}

/// The first position whose count, with `extra`, has reached the bound, or the number of counts
/// where there is none. The search begins at `start`, before which there is none.
fn first_from(follows: &[u32], extra: u64, bound: u64, start: usize) -> usize
    requires extra { extra ≤ 2 ^ 63 }
    requires start { start ≤ length follows.now }
    requires none { (y : ℕ) → y < start → slice_index follows.now y + extra < bound }
    ensures first { result ≡ first_reaching follows.now extra bound }
    ensures within { result ≤ length follows.now }
{
    for place in start..follows.len() {
        if follows[place] as u64 + extra >= bound {
            return place;
        }
    }
    follows.len()
}
