//! The outcome of one question.
ghost use Rattle.conjunctions.specs.Settling.{CanAnswer};
ghost use Rattle.part_pulls.specs.Counters.{CountersRise};
ghost use Rattle.part_pulls.specs.Observing.{IsReady, clocks_seen};
ghost use Rattle.question_outcome.specs.Outcomes.{tells_nothing};
ghost use Rattle.question_outcomes.specs.Telling.{HasSystem, IsOutcomeOf};
ghost use Rattle.question_outcomes.specs.inside.Nowhere.{AreNowhereIn};
ghost use Rattle.question_outcomes.specs.inside.Telling.{IsTold};
ghost use Rattle.rctl_parts.specs.Pieces.{disjuncts_of};
ghost use Rattle.std.specs.Prelude.{◌≡◌, [], false, not, true, IfOk};

use crate::forms::{is_turned, tells_nothing};
use crate::nowhere::nowhere_in;
use crate::reached::tell_reached;
use crate::settled::tell_settled;
use crate::told::Told;
use part_pulls::Observed;
use pota_base::{Gate, List, NoMemory, Steps};
use pull_fans::System;
use question_meaning::Form;
use question_outcome::{Outcome, PartPlace};
use rctl_parts::Part;
use report_lines::WitnessText;
use std::alloc::Global;
use std::sync::ledger::Ledger;
use std::thread::Threads;

// What is told of the disjuncts: by least cuts where these suffice.
fn tell<R: Threads + Sync, G: Gate, L: Ledger>(
    rt: &R,
    alloc: Global,
    seen: &Observed,
    asked: &[List<Part>],
    system: &mut Option<System>,
    gate: &G,
    steps: &mut Steps<L>,
) -> Result<Told, NoMemory>
    requires ready { IsReady seen.now }
    requires can { CanAnswer seen.now (disjuncts_of asked.now) }
    requires rise { CountersRise seen.now (disjuncts_of asked.now) }
    requires system { HasSystem (clocks_seen seen.now) system.old }
    ensures told { IfOk result
        (λ told. IsTold seen.now (disjuncts_of asked.now) told.truth told.witnesses) }
    ensures system { HasSystem (clocks_seen seen.now) system.new }
{
    match tell_reached(alloc, seen, asked, system, steps)? {
        Some(told) => Ok(told),
        None => tell_settled(rt, alloc, seen, asked, system, gate, steps),
    }
}

// Whether a question holds whose asked disjuncts have this truth.
fn holds_where(truth: bool, turned: bool) -> bool
    ensures turned { turned ≡ true → result ≡ not truth }
    ensures straight { turned ≡ false → result ≡ truth }
{
    if turned { !truth } else { truth }
}

// The witnesses against the question: none where it holds.
fn against(alloc: Global, holds: bool, witnesses: List<WitnessText>) -> List<WitnessText>
    ensures none { holds ≡ true → result ≡ [] }
    ensures all { holds ≡ false → result ≡ witnesses }
{
    if holds {
        drop(witnesses);
        return List::new(alloc);
    }
    witnesses
}

// The places of the parts that hold nowhere, where the answer alone says nothing.
fn places_told<L: Ledger>(
    alloc: Global,
    seen: &Observed,
    asked: &[List<Part>],
    nothing: bool,
    system: &mut Option<System>,
    steps: &mut Steps<L>,
) -> Result<List<PartPlace>, NoMemory>
    requires ready { IsReady seen.now }
    requires can { CanAnswer seen.now (disjuncts_of asked.now) }
    requires rise { CountersRise seen.now (disjuncts_of asked.now) }
    requires system { HasSystem (clocks_seen seen.now) system.old }
    ensures nowhere { nothing ≡ true
        → IfOk result (AreNowhereIn seen.now (disjuncts_of asked.now)) }
    ensures none { nothing ≡ false → IfOk result (λ places. places ≡ []) }
    ensures system { HasSystem (clocks_seen seen.now) system.new }
{
    if nothing {
        return nowhere_in(alloc, seen, asked, system, steps);
    }
    Ok(List::new(alloc))
}

/// The outcome of the question of this form that asks these disjuncts.
pub fn outcome_of<R: Threads + Sync, G: Gate, L: Ledger>(
    rt: &R,
    alloc: Global,
    seen: &Observed,
    asked: &[List<Part>],
    form: Form,
    system: &mut Option<System>,
    gate: &G,
    steps: &mut Steps<L>,
) -> Result<Outcome, NoMemory>
    requires ready { IsReady seen.now }
    requires can { CanAnswer seen.now (disjuncts_of asked.now) }
    requires rise { CountersRise seen.now (disjuncts_of asked.now) }
    requires system { HasSystem (clocks_seen seen.now) system.old }
    ensures outcome { IfOk result (IsOutcomeOf seen.now (disjuncts_of asked.now) form) }
    ensures system { HasSystem (clocks_seen seen.now) system.new }
{
    let Told { truth, witnesses } = tell(rt, alloc, seen, asked, system, gate, steps)?;
    let holds = holds_where(truth, is_turned(form));
    let witnesses = against(alloc, holds, witnesses);
    let nothing = tells_nothing(form, holds);
    let nowhere = places_told(alloc, seen, asked, nothing, system, steps)?;
    Ok(Outcome {
        holds,
        witnesses,
        nowhere,
    })
}
