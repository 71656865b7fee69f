//! The path that takes at each cut the first process that goes on.

ghost use Rattle.std.specs.Prelude.{◌≡◌, ℕ, ◌+◌, ◌<◌, ◌≤◌, ◌↔◌, length, IsTrue, IfOk, MatchOption};
ghost use Rattle.run_model.specs.Cut.{Cut as CutOf, count, with_next};
ghost use Rattle.run_model.specs.Witness.{FirstSteps};
ghost use Rattle.pota_base.specs.Limits.{most_events, most_processes};
ghost use Rattle.witness.specs.inside.Walks.{IsNext, HasNoNext, LeadsTo};
ghost use Rattle.witness.specs.Views.{places_of};

use cut_lattice::Cut;
use pota_base::{EventId, List, NoMemory};
use std::alloc::Global;

/// A set of cuts through which a path leads.
pub trait Way {
    ghost holds: { Self → CutOf → Type 0 };
    /// What a step needs beside a cut of the set.
    ghost ready: { Self → Type 0 };

    /// Whether the process's next event leads from this cut of the set to one of the set.
    fn goes_on(&self, at: &Cut, process: u32) -> bool
        requires ready { ready self.now }
        requires at { holds self.now at.now }
        requires process { process < length at.now }
        ensures { IsTrue result ↔ holds self.now (with_next at.now process) };
}

// The first process that goes on.
fn next<W: Way>(way: &W, at: &Cut) -> Option<u32>
    requires ready { W.ready way.now }
    requires at { W.holds way.now at.now }
    requires few { length at.now ≤ most_processes }
    ensures { MatchOption result (HasNoNext (W.holds way.now) at.now)
        (IsNext (W.holds way.now) at.now) }
{
    for process in 0..at.as_slice().len() as u32 {
        if way.goes_on(at, process) {
            return Some(process);
        }
    }
    None
}

/// Takes the process's next event.
pub fn take(at: &mut Cut, process: u32) -> EventId
    requires process { process < length at.old }
    requires room { count at.old process < most_events }
    ensures at { at.new ≡ with_next at.old process }
    ensures event { result ≡ record { process = process; position = count at.old process + 1 } }
{
    let position = at.get(process) + 1;
    at.set(process, position);
    EventId { process, position }
}

/// The steps from the start to the goal to which the way leads.
pub fn walk<W: Way>(
    alloc: Global,
    way: &W,
    start: Cut,
    goal: &Cut,
) -> Result<List<EventId>, NoMemory>
    requires ready { W.ready way.now }
    requires start { W.holds way.now start }
    requires few { length start ≤ most_processes }
    requires leads { LeadsTo (W.holds way.now) goal.now }
    requires small { (i : ℕ) → count goal.now i ≤ most_events }
    ensures { IfOk result (λ steps.
        FirstSteps (W.holds way.now) start (places_of steps) goal.now) }
{
    let mut at = start;
    let mut steps = List::new(alloc);
    'walk: while let Some(process) = next(way, &at) {
        let event = take(&mut at, process);
        steps.push(event)?;
    }
    Ok(steps)
}
