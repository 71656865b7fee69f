//! The outcomes of all questions of a list.
ghost use Rattle.observation.specs.Growing.{HasTaken};
ghost use Rattle.asked_list.specs.Lists.{range_of};
ghost use Rattle.question_outcomes.specs.Telling.{AreOutcomes};
ghost use Rattle.rctl_parts.specs.Pieces.{disjuncts_of};
ghost use Rattle.std.specs.Prelude.{◌≡◌, length, min, IfOk};

use crate::telling::outcome_of;
use asked_list::{AskedRange, Listed};
use observation::Observation;
use pota_base::{Gate, List, NoMemory, Steps};
use question_outcome::Outcome;
use rctl_parts::Part;
use std::alloc::Global;
use std::sync::ledger::Ledger;
use std::thread::Threads;

// The disjuncts of the range, as far as they are there.
fn in_range(disjuncts: &[List<Part>], range: AskedRange) -> &[List<Part>]
    ensures { let to = min range.to (length disjuncts.now) in
        result.now ≡ range_of (min range.from to) to disjuncts.now }
{
    let to = disjuncts.len().min(range.to as usize);
    let from = to.min(range.from as usize);
    &disjuncts[from..to]
}

/// The outcome of each question of a list, in their order, on what was observed for the list. It
/// may wait for threads that it joins.
pub fn outcomes<R: Threads + Sync, G: Gate, L: Ledger>(
    rt: &R,
    alloc: Global,
    observation: &Observation,
    listed: &[Listed],
    gate: &G,
    steps: &mut Steps<L>,
) -> Result<List<Outcome>, NoMemory>
    requires { HasTaken observation.now.growing }
    ensures { IfOk result (AreOutcomes observation.now.growing.seen
        (disjuncts_of observation.now.growing.disjuncts) listed.now) }
{
    let seen = observation.seen();
    let disjuncts = observation.disjuncts().as_slice();
    let mut system = None;
    let mut made = List::new(alloc);
    'listed: for question in listed {
        let range = question.range;
        let asked = in_range(disjuncts, range);
        let form = range.form;
        let outcome = outcome_of(rt, alloc, seen, asked, form, &mut system, gate, steps)?;
        made.push(outcome)?;
    }
    Ok(made)
}
