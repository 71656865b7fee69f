//! The parts that hold nowhere.
ghost use Rattle.conjunctions.specs.Settling.{CanAnswer};
ghost use Rattle.part_pulls.specs.Counters.{CountersRise};
ghost use Rattle.part_pulls.specs.Observing.{IsReady, clocks_seen};
ghost use Rattle.question_outcomes.specs.Telling.{HasSystem};
ghost use Rattle.question_outcomes.specs.inside.Nowhere.{AddsNowhere, AreNowhereIn, TellsNowhere};
ghost use Rattle.question_outcomes.specs.inside.Nowhere.{operand_of};
ghost use Rattle.question_outcomes.specs.inside.Telling.{CanTell};
ghost use Rattle.rctl_parts.specs.Pieces.{disjuncts_of, piece_of, pieces_of};
ghost use Rattle.std.specs.Prelude.{◌≡◌, ◌∷◌, [], IfNone, IfOk, IfSome, OnOk};

use crate::finding::least_of;
use least_holding::are_atoms;
use part_pulls::Observed;
use pota_base::{List, NoMemory, Steps};
use pull_fans::System;
use question_outcome::PartPlace;
use rctl_parts::Part;
use std::alloc::Global;
use std::sync::ledger::Ledger;

// The parts under the one operator of a disjunct.
#[tactic(auto, using(rctl_parts::proofs::Rules::pieces))]
fn operand(disjunct: &[Part]) -> Option<&[Part]>
    ensures some { IfSome result
        (λ parts. operand_of (pieces_of disjunct.now) ≡ pieces_of parts.now) }
    ensures none { IfNone result (operand_of (pieces_of disjunct.now) ≡ []) }
{
    if disjunct.len() != 1 {
        return None;
    }
    match &disjunct[0] {
        Part::Temporal { parts, .. } => Some(parts.as_slice()),
        Part::Local { .. }
        | Part::AtMost { .. }
        | Part::AtLeast { .. }
        | Part::Never
        | Part::DiffAtMost { .. }
        | Part::DiffAtLeast { .. } => None,
    }
}

// Whether a part without an operator, alone, holds at no consistent cut.
fn is_nowhere<L: Ledger>(
    alloc: Global,
    seen: &Observed,
    one: &[Part],
    system: &mut Option<System>,
    steps: &mut Steps<L>,
) -> Result<bool, NoMemory>
    requires ready { IsReady seen.now }
    requires can { CanTell seen.now (pieces_of one.now) }
    requires system { HasSystem (clocks_seen seen.now) system.old }
    ensures nowhere { IfOk result (TellsNowhere seen.now (pieces_of one.now)) }
    ensures system { HasSystem (clocks_seen seen.now) system.new }
{
    if !are_atoms(one) {
        return Ok(false);
    }
    match least_of(alloc, seen, one, system, steps)? {
        Some(_) => Ok(false),
        None => Ok(true),
    }
}

// Puts the places of those of the parts that hold nowhere behind the others.
fn push_nowhere<L: Ledger>(
    alloc: Global,
    seen: &Observed,
    parts: &[Part],
    disjunct: u32,
    places: &mut List<PartPlace>,
    system: &mut Option<System>,
    steps: &mut Steps<L>,
) -> Result<(), NoMemory>
    requires ready { IsReady seen.now }
    requires can { CanTell seen.now (pieces_of parts.now) }
    requires system { HasSystem (clocks_seen seen.now) system.old }
    ensures adds { OnOk result
        (AddsNowhere seen.now disjunct 1 (pieces_of parts.now) places.old places.new) }
    ensures system { HasSystem (clocks_seen seen.now) system.new }
{
    'parts: for index in 0..parts.len() {
        if is_nowhere(alloc, seen, &parts[index..index + 1], system, steps)? {
            places.push(PartPlace {
                disjunct,
                part: index as u32 + 1,
            })?;
        }
    }
    Ok(())
}

/// The places of the parts without an operator that hold nowhere, each alone, of the parts under
/// the operators of these disjuncts.
pub fn nowhere_in<L: Ledger>(
    alloc: Global,
    seen: &Observed,
    asked: &[List<Part>],
    system: &mut Option<System>,
    steps: &mut Steps<L>,
) -> Result<List<PartPlace>, NoMemory>
    requires ready { IsReady seen.now }
    requires can { CanAnswer seen.now (disjuncts_of asked.now) }
    requires rise { CountersRise seen.now (disjuncts_of asked.now) }
    requires system { HasSystem (clocks_seen seen.now) system.old }
    ensures nowhere { IfOk result (AreNowhereIn seen.now (disjuncts_of asked.now)) }
    ensures system { HasSystem (clocks_seen seen.now) system.new }
{
    let mut places = List::new(alloc);
    'asked: for (index, disjunct) in asked.iter().enumerate() {
        let number = index as u32 + 1;
        if let Some(parts) = operand(disjunct.as_slice()) {
            push_nowhere(alloc, seen, parts, number, &mut places, system, steps)?;
        }
    }
    Ok(places)
}
