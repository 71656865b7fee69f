//! What an atom asks of cuts, and its truth at the initial one.
ghost use Rattle.std.specs.Prelude.{◌≡◌, true, IfOk};
ghost use Rattle.rctl_parts.specs.Pieces.{Atom, piece_of, atom};
ghost use Rattle.rctl_parts.specs.MadeFor.{PieceFits};
ghost use Rattle.part_pulls.specs.Observing.{IsReady, scope_seen};
ghost use Rattle.part_pulls.specs.Counters.{AllRise, counters_of_part};
ghost use Rattle.part_pulls.specs.Systems.{is_atom, IsAtomOf};

use crate::atom_pulls::{
    AtomPulls, at_least_pulls, at_most_pulls, diff_at_least_pulls, diff_at_most_pulls, local_pulls,
    never_pulls,
};
use crate::observed::Observed;
use counter_preds::Variable;
use pota_base::NoMemory;
use rctl_parts::Part;
use std::alloc::Global;

/// A variable of a process, by their numbers.
fn variable(process: &u32, number: &u32) -> Variable
    ensures process { result.process ≡ process.now }
    ensures number { result.number ≡ number.now }
{
    Variable {
        process: *process,
        number: *number,
    }
}

/// The pulls of a part that isn't temporal.
pub fn pulls_of_atom(alloc: Global, seen: &Observed, part: &Part) -> Result<AtomPulls, NoMemory>
    requires ready { IsReady seen.now }
    requires atom { is_atom (piece_of part.now) ≡ true }
    requires fits { PieceFits (scope_seen seen.now) (piece_of part.now) }
    requires counters { AllRise seen.now (counters_of_part (piece_of part.now)) }
    ensures { IfOk result (λ found. (a : Atom) → piece_of part.now ≡ atom a
        → IsAtomOf seen.now a found.pulls found.truth) }
{
    match part {
        Part::Local { process, expr } => local_pulls(alloc, seen, *process, expr),
        Part::AtMost {
            sender,
            receiver,
            k,
        } => at_most_pulls(alloc, seen, *sender, *receiver, *k),
        Part::AtLeast {
            sender,
            receiver,
            k,
        } => at_least_pulls(alloc, seen, *sender, *receiver, *k),
        Part::Never => never_pulls(alloc, seen),
        Part::DiffAtMost {
            left_process: p,
            left,
            right_process: q,
            right,
            k,
        } => {
            let left = variable(p, left);
            let right = variable(q, right);
            diff_at_most_pulls(alloc, seen, left, right, *k)
        }
        Part::DiffAtLeast {
            left_process: p,
            left,
            right_process: q,
            right,
            k,
        } => {
            let left = variable(p, left);
            let right = variable(q, right);
            diff_at_least_pulls(alloc, seen, left, right, *k)
        }
        Part::Temporal { .. } => unreachable!(),
    }
}
