//! What is told of disjuncts that are EF over atoms, by least cuts.
ghost use Rattle.part_pulls.specs.Counters.{CountersRise};
ghost use Rattle.part_pulls.specs.Observing.{IsReady, clocks_seen};
ghost use Rattle.conjunctions.specs.Settling.{CanAnswer};
ghost use Rattle.question_outcomes.specs.Telling.{HasSystem};
ghost use Rattle.question_outcomes.specs.inside.Telling.{CanTell, IsReached, IsTold};
ghost use Rattle.question_outcomes.specs.inside.Telling.{ReachesAtoms};
ghost use Rattle.rctl_grammar.specs.declared.tree.Operator.TheVariants as operator_is;
ghost use Rattle.rctl_parts.specs.Pieces.{disjuncts_of, pieces_of};
ghost use Rattle.std.specs.Prelude.{◌≡◌, ◌∷◌, [], true, IfOk, IfSome};

use crate::finding::least_of;
use crate::told::{Reached, Told};
use least_holding::are_atoms;
use part_pulls::Observed;
use pota_base::{List, NoMemory, Steps};
use pull_fans::System;
use rctl_grammar::Operator;
use rctl_parts::Part;
use report_lines::WitnessText;
use std::alloc::Global;
use std::sync::ledger::Ledger;
use witness::reach_to;

// Whether the operator is EF.
fn is_ef(operator: Operator) -> bool
    ensures { result ≡ true → operator ≡ operator_is.Ef }
{
    match operator {
        Operator::Ef => true,
        Operator::Ag | Operator::Eg | Operator::Ex(_) | Operator::Af | Operator::Ax => false,
    }
}

// The atoms, where the disjunct is EF over atoms.
#[tactic(auto, using(rctl_parts::proofs::Rules::pieces))]
fn reached_atoms(disjunct: &[Part]) -> Option<&[Part]>
    ensures { IfSome result
        (λ parts. ReachesAtoms (pieces_of disjunct.now) (pieces_of parts.now)) }
{
    if disjunct.len() != 1 {
        return None;
    }
    let Part::Temporal { operator, parts } = &disjunct[0] else {
        return None;
    };
    if is_ef(*operator) && are_atoms(parts.as_slice()) {
        return Some(parts.as_slice());
    }
    None
}

// What is told of the disjunct of this number.
fn reach_disjunct<L: Ledger>(
    alloc: Global,
    seen: &Observed,
    disjunct: &[Part],
    number: u32,
    system: &mut Option<System>,
    steps: &mut Steps<L>,
) -> Result<Reached, NoMemory>
    requires ready { IsReady seen.now }
    requires can { CanTell seen.now (pieces_of disjunct.now) }
    requires system { HasSystem (clocks_seen seen.now) system.old }
    ensures reached { IfOk result (IsReached seen.now number (pieces_of disjunct.now)) }
    ensures system { HasSystem (clocks_seen seen.now) system.new }
{
    let Some(parts) = reached_atoms(disjunct) else {
        return Ok(Reached::Other);
    };
    let least = least_of(alloc, seen, parts, system, steps)?;
    let witness = reach_to(alloc, seen.trace.order(), &least)?;
    let text = WitnessText {
        disjunct: number,
        part: 1,
        witness,
    };
    match least {
        Some(_) => Ok(Reached::Somewhere(text)),
        None => Ok(Reached::Nowhere(text)),
    }
}

// What is told where this witness is that of the first true disjunct.
fn told_true(alloc: Global, text: WitnessText) -> Result<Told, NoMemory>
    ensures truth { IfOk result (λ told. told.truth ≡ true) }
    ensures witnesses { IfOk result (λ told. told.witnesses ≡ text ∷ []) }
{
    let mut witnesses = List::new(alloc);
    witnesses.push(text)?;
    Ok(Told {
        truth: true,
        witnesses,
    })
}

/// What is told of disjuncts of which those up to the first true one are EF over atoms.
pub fn tell_reached<L: Ledger>(
    alloc: Global,
    seen: &Observed,
    asked: &[List<Part>],
    system: &mut Option<System>,
    steps: &mut Steps<L>,
) -> Result<Option<Told>, NoMemory>
    requires ready { IsReady seen.now }
    requires can { CanAnswer seen.now (disjuncts_of asked.now) }
    requires rise { CountersRise seen.now (disjuncts_of asked.now) }
    requires system { HasSystem (clocks_seen seen.now) system.old }
    ensures told { IfOk result (λ found. IfSome found
        (λ told. IsTold seen.now (disjuncts_of asked.now) told.truth told.witnesses)) }
    ensures system { HasSystem (clocks_seen seen.now) system.new }
{
    let mut witnesses = List::new(alloc);
    'asked: for (index, disjunct) in asked.iter().enumerate() {
        let number = index as u32 + 1;
        match reach_disjunct(alloc, seen, disjunct.as_slice(), number, system, steps)? {
            Reached::Somewhere(text) => return Ok(Some(told_true(alloc, text)?)),
            Reached::Nowhere(text) => witnesses.push(text)?,
            Reached::Other => return Ok(None),
        }
    }
    Ok(Some(Told {
        truth: false,
        witnesses,
    }))
}
