//! The pulls of each kind of atom, and its truth at the initial cut.
ghost use Rattle.std.specs.Prelude.{◌≡◌, ◌-ℤ◌, Option, IfOk};
ghost use Rattle.counter_preds.specs.Counters.{IsVariable, value_in};
ghost use Rattle.rctl_parts.specs.Pieces.{local, at_most, at_least, never};
ghost use Rattle.rctl_parts.specs.Pieces.{diff_at_most, diff_at_least};
ghost use Rattle.rctl_parts.specs.Exprs.{expr_of};
ghost use Rattle.rctl_parts.specs.MadeFor.{AtomFits};
ghost use Rattle.part_pulls.specs.Observing.{IsReady, scope_seen};
ghost use Rattle.part_pulls.specs.Counters.{AllRise, counters_of_atom};
ghost use Rattle.part_pulls.specs.Systems.{IsAtomOf};

use crate::observed::Observed;
use channel_preds::{at_least, at_most, counts};
use counter_preds::{Variable, diff_at_least, diff_at_most};
use event_log::States;
use local_preds::{constant_pulls, pulls_of, truth_row};
use pota_base::{List, NoMemory};
use pull_system::Pull;
use rctl_parts::LocalExpr;
use std::alloc::Global;

/// What an atom asks of cuts, and its truth at the initial one.
#[derive(Debug, Drop)]
pub struct AtomPulls {
    pub pulls: List<Pull>,
    pub truth: bool,
}

/// Those of an expression over a process, or over none.
pub fn local_pulls(
    alloc: Global,
    seen: &Observed,
    process: Option<u32>,
    expr: &LocalExpr,
) -> Result<AtomPulls, NoMemory>
    requires ready { IsReady seen.now }
    requires fits { AtomFits (scope_seen seen.now) (local process (expr_of expr.now)) }
    ensures { IfOk result
        (λ a. IsAtomOf seen.now (local process (expr_of expr.now)) a.pulls a.truth) }
{
    let states = seen.trace.states();
    let row = truth_row(alloc, expr, states, process.unwrap_or(0), &seen.watch_rows)?;
    let truth = *row.get(0);
    let pulls = match process {
        Some(process) => pulls_of(alloc, states.shape(), process, row.as_slice())?,
        None => constant_pulls(alloc, states.shape(), truth)?,
    };
    Ok(AtomPulls { pulls, truth })
}

/// Those of at most so many messages under way. None is under way at the initial cut.
pub fn at_most_pulls(
    alloc: Global,
    seen: &Observed,
    sender: u32,
    receiver: u32,
    k: u64,
) -> Result<AtomPulls, NoMemory>
    requires ready { IsReady seen.now }
    requires fits { AtomFits (scope_seen seen.now) (at_most sender receiver k) }
    ensures { IfOk result (λ a. IsAtomOf seen.now (at_most sender receiver k) a.pulls a.truth) }
{
    let channel = counts(alloc, seen.trace.states(), sender, receiver)?;
    let pulls = at_most(alloc, &channel, k)?;
    Ok(AtomPulls { pulls, truth: true })
}

/// Those of at least so many.
pub fn at_least_pulls(
    alloc: Global,
    seen: &Observed,
    sender: u32,
    receiver: u32,
    k: u64,
) -> Result<AtomPulls, NoMemory>
    requires ready { IsReady seen.now }
    requires fits { AtomFits (scope_seen seen.now) (at_least sender receiver k) }
    ensures { IfOk result (λ a. IsAtomOf seen.now (at_least sender receiver k) a.pulls a.truth) }
{
    let channel = counts(alloc, seen.trace.states(), sender, receiver)?;
    let pulls = at_least(alloc, &channel, k)?;
    let truth = k == 0;
    Ok(AtomPulls { pulls, truth })
}

/// Those of what no cut meets.
pub fn never_pulls(alloc: Global, seen: &Observed) -> Result<AtomPulls, NoMemory>
    requires { IsReady seen.now }
    ensures { IfOk result (λ a. IsAtomOf seen.now never a.pulls a.truth) }
{
    let pulls = constant_pulls(alloc, seen.trace.states().shape(), false)?;
    Ok(AtomPulls {
        pulls,
        truth: false,
    })
}

/// The left value less the right one at the initial cut.
fn first_difference(states: &States, left: Variable, right: Variable) -> i128
    requires left { IsVariable states.now left }
    requires right { IsVariable states.now right }
    ensures { result ≡ value_in states.now left 0 -ℤ value_in states.now right 0 }
{
    let left = states.value(left.process, 0, left.number);
    let right = states.value(right.process, 0, right.number);
    i128::from(left) - i128::from(right)
}

/// Those of a difference that is at most `k`.
pub fn diff_at_most_pulls(
    alloc: Global,
    seen: &Observed,
    left: Variable,
    right: Variable,
    k: i128,
) -> Result<AtomPulls, NoMemory>
    requires ready { IsReady seen.now }
    requires fits { AtomFits (scope_seen seen.now)
        (diff_at_most left.process left.number right.process right.number k) }
    requires counters { AllRise seen.now (counters_of_atom
        (diff_at_most left.process left.number right.process right.number k)) }
    ensures { IfOk result (λ a. IsAtomOf seen.now
        (diff_at_most left.process left.number right.process right.number k) a.pulls a.truth) }
{
    let states = seen.trace.states();
    let pulls = diff_at_most(alloc, states, left, right, k)?;
    let truth = first_difference(states, left, right) <= k;
    Ok(AtomPulls { pulls, truth })
}

/// Those of a difference that is at least `k`.
pub fn diff_at_least_pulls(
    alloc: Global,
    seen: &Observed,
    left: Variable,
    right: Variable,
    k: i128,
) -> Result<AtomPulls, NoMemory>
    requires ready { IsReady seen.now }
    requires fits { AtomFits (scope_seen seen.now)
        (diff_at_least left.process left.number right.process right.number k) }
    requires counters { AllRise seen.now (counters_of_atom
        (diff_at_least left.process left.number right.process right.number k)) }
    ensures { IfOk result (λ a. IsAtomOf seen.now
        (diff_at_least left.process left.number right.process right.number k) a.pulls a.truth) }
{
    let states = seen.trace.states();
    let pulls = diff_at_least(alloc, states, left, right, k)?;
    let truth = first_difference(states, left, right) >= k;
    Ok(AtomPulls { pulls, truth })
}
