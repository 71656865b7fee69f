//! Bounds on the difference of two counters, as pulls.
ghost use Rattle.std.specs.Prelude.{◌≡◌, ℕ, ◌^◌, ◌<◌, ◌↔◌, List as ListOf, [], ◌∷◌, length, map};
ghost use Rattle.std.specs.Prelude.{All, IfOk, pos, ◌-ℤ◌, ◌≤ℤ◌, neg_ℤ};
ghost use Rattle.pull_system.specs.System.{IsPull};
ghost use Rattle.pull_system.specs.Pulls.{ClosedUnder};
ghost use Rattle.counter_preds.specs.Counters.{AreCounters, AreThere, value_within};
ghost use Rattle.counter_preds.specs.Counters.{at_most_pull, at_least_pull};

use crate::positions::first_positions;
use crate::values::{Variable, values_along};
use event_log::States;
use pota_base::{List, NoMemory};
use pull_system::Pull;
use std::alloc::Global;

/// That the left value less the right one is at most `k`, as one pull from the left process to the
/// right one.
///
/// Its entry at a position of the left process is the first one of the right process at which the
/// right value, with `k`, has reached the left one, or one past the last where there is none.
/// (Counters: Garg and Mittal.)
pub fn diff_at_most(
    alloc: Global,
    states: &States,
    left: Variable,
    right: Variable,
    k: i128,
) -> Result<List<Pull>, NoMemory>
    requires counters { AreCounters states.now left right }
    requires low { neg_ℤ (pos (2 ^ 64)) ≤ℤ k }
    requires high { k ≤ℤ pos (2 ^ 64) }
    ensures pulls { IfOk result (λ pulls. pulls ≡ at_most_pull states.now left right k ∷ []) }
    ensures fit { IfOk result (All (IsPull (map length states.now.events))) }
    ensures closed { (v : ListOf ℕ) → AreThere states.now left right v → IfOk result (λ pulls.
        ClosedUnder pulls v
        ↔ ((value_within states.now left v -ℤ value_within states.now right v) ≤ℤ k)) }
{
    let leads = values_along(alloc, states, left)?;
    let follows = values_along(alloc, states, right)?;
    let table = first_positions(alloc, leads.as_slice(), 0, follows.as_slice(), k)?;
    only(
        alloc,
        Pull {
            src: left.process,
            dst: right.process,
            table,
        },
    )
}

/// That the left value less the right one is at least `k`, as one pull from the right process to
/// the left one.
///
/// Its entry at a position of the right process is the first one of the left process at which the
/// left value has reached the right one, with `k`, or one past the last where there is none.
pub fn diff_at_least(
    alloc: Global,
    states: &States,
    left: Variable,
    right: Variable,
    k: i128,
) -> Result<List<Pull>, NoMemory>
    requires counters { AreCounters states.now left right }
    requires low { neg_ℤ (pos (2 ^ 64)) ≤ℤ k }
    requires high { k ≤ℤ pos (2 ^ 64) }
    ensures pulls { IfOk result (λ pulls. pulls ≡ at_least_pull states.now left right k ∷ []) }
    ensures fit { IfOk result (All (IsPull (map length states.now.events))) }
    ensures closed { (v : ListOf ℕ) → AreThere states.now left right v → IfOk result (λ pulls.
        ClosedUnder pulls v
        ↔ (k ≤ℤ (value_within states.now left v -ℤ value_within states.now right v))) }
{
    let leads = values_along(alloc, states, right)?;
    let follows = values_along(alloc, states, left)?;
    let table = first_positions(alloc, leads.as_slice(), k, follows.as_slice(), 0)?;
    only(
        alloc,
        Pull {
            src: right.process,
            dst: left.process,
            table,
        },
    )
}

/// The list of this pull alone.
fn only(alloc: Global, pull: Pull) -> Result<List<Pull>, NoMemory>
    ensures { IfOk result (λ pulls. pulls ≡ pull ∷ []) }
{
    let mut pulls = List::new(alloc);
    pulls.push(pull)?;
    Ok(pulls)
}
