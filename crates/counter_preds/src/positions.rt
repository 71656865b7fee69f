//! Where the values along one process reach those along another.
ghost use Rattle.std.specs.Prelude.{◌≡◌, ℕ, ◌+◌, ◌^◌, ◌<◌, ◌≤◌, length, IfOk};
ghost use Rattle.std.specs.Prelude.{pos, ◌+ℤ◌, ◌-ℤ◌, ◌≤ℤ◌, ◌<ℤ◌, neg_ℤ};
ghost use Rattle.pota_base.specs.Limits.{most_events};
ghost use Rattle.counter_preds.specs.Counters.{AreRising, value_at, first_reaching};
ghost use Rattle.counter_preds.specs.Counters.{first_positions as first_positions_of};

use pota_base::{List, NoMemory};
use std::alloc::Global;

/// For each position of the leading process, the first one of the following process whose value,
/// with `extra`, has reached the leading value, with `more`, and one entry more, which is the last
/// one again.
///
/// Since the leading values never fall, each search goes on where the last one ended: all of them
/// together pass the values once.
pub fn first_positions(
    alloc: Global,
    leads: &[i64],
    more: i128,
    follows: &[i64],
    extra: i128,
) -> Result<List<u32>, NoMemory>
    requires leads { AreRising leads.now }
    requires few_leads { length leads.now ≤ most_events + 1 }
    requires few_follows { length follows.now ≤ most_events + 1 }
    requires low_more { neg_ℤ (pos (2 ^ 64)) ≤ℤ more }
    requires high_more { more ≤ℤ pos (2 ^ 64) }
    requires low_extra { neg_ℤ (pos (2 ^ 64)) ≤ℤ extra }
    requires high_extra { extra ≤ℤ pos (2 ^ 64) }
    ensures { IfOk result (λ t. t ≡ first_positions_of leads.now more follows.now extra) }
{
    let mut table = Vec::with_capacity(alloc, leads.len() + 1)?;
    let mut place = 0;
    for &lead in leads {
        place = first_from(follows, extra, lead as i128 + more, place);
        table.push(place as u32)?;
    }
    let last = place as u32;
    table.push(last)?;
    Ok(List::from_vec(table))
}

/// The first position whose value, with `extra`, has reached the bound, or the number of values
/// where there is none. The search begins at `start`, before which there is none.
fn first_from(follows: &[i64], extra: i128, bound: i128, start: usize) -> usize
    requires low { neg_ℤ (pos (2 ^ 64)) ≤ℤ extra }
    requires high { extra ≤ℤ pos (2 ^ 64) }
    requires start { start ≤ length follows.now }
    requires none { (y : ℕ) → y < start → (value_at follows.now y +ℤ extra) <ℤ bound }
    ensures first { result ≡ first_reaching follows.now extra bound }
    ensures within { result ≤ length follows.now }
{
    for place in start..follows.len() {
        if follows[place] as i128 + extra >= bound {
            return place;
        }
    }
    follows.len()
}
