//! What is told of disjuncts by their answer.
ghost use Rattle.conjunctions.specs.Answering.{IsAnswer};
ghost use Rattle.conjunctions.specs.Settling.{CanAnswer};
ghost use Rattle.part_pulls.specs.Counters.{CountersRise};
ghost use Rattle.part_pulls.specs.Observing.{IsReady, clocks_seen};
ghost use Rattle.question_outcomes.specs.Telling.{HasSystem};
ghost use Rattle.question_outcomes.specs.inside.Telling.{IsTold};
ghost use Rattle.rctl_parts.specs.Pieces.{disjuncts_of};
ghost use Rattle.std.specs.Prelude.{◌≡◌, [], IfOk};

use crate::told::Told;
use answer_report::witnesses_of;
use conjunctions::{Answer, Kept, Means, Round, answer_all};
use part_pulls::Observed;
use pota_base::{Gate, List, NoMemory, Steps};
use pull_fans::System;
use rctl_parts::Part;
use std::alloc::Global;
use std::sync::ledger::Ledger;
use std::thread::Threads;

// A round without rows that has the system.
fn begin_round(alloc: Global, system: Option<System>) -> Round
    ensures before { result.before ≡ [] }
    ensures system { result.system ≡ system }
{
    Round::new(
        alloc,
        Kept {
            settled: List::new(alloc),
            system,
        },
    )
}

// The answer to the disjuncts. It uses up the system.
fn answer<R: Threads + Sync, G: Gate, L: Ledger>(
    rt: &R,
    alloc: Global,
    seen: &Observed,
    asked: &[List<Part>],
    system: Option<System>,
    gate: &G,
    steps: &mut Steps<L>,
) -> Result<Answer, NoMemory>
    requires ready { IsReady seen.now }
    requires can { CanAnswer seen.now (disjuncts_of asked.now) }
    requires rise { CountersRise seen.now (disjuncts_of asked.now) }
    requires system { HasSystem (clocks_seen seen.now) system }
    ensures { IfOk result (IsAnswer seen.now (disjuncts_of asked.now)) }
{
    let mut round = begin_round(alloc, system);
    let means = Means {
        rt,
        alloc,
        workers: 1,
        gate,
    };
    let answer = answer_all(&means, seen, asked, &mut round, steps)?;
    drop(round);
    Ok(answer)
}

/// What is told of any disjuncts. It uses up the system.
pub fn tell_settled<R: Threads + Sync, G: Gate, L: Ledger>(
    rt: &R,
    alloc: Global,
    seen: &Observed,
    asked: &[List<Part>],
    system: &mut Option<System>,
    gate: &G,
    steps: &mut Steps<L>,
) -> Result<Told, NoMemory>
    requires ready { IsReady seen.now }
    requires can { CanAnswer seen.now (disjuncts_of asked.now) }
    requires rise { CountersRise seen.now (disjuncts_of asked.now) }
    requires system { HasSystem (clocks_seen seen.now) system.old }
    ensures told { IfOk result
        (λ told. IsTold seen.now (disjuncts_of asked.now) told.truth told.witnesses) }
    ensures system { HasSystem (clocks_seen seen.now) system.new }
{
    let taken = system.take();
    let answer = answer(rt, alloc, seen, asked, taken, gate, steps)?;
    let witnesses = witnesses_of(alloc, seen, &answer)?;
    let truth = answer.truth;
    drop(answer);
    Ok(Told { truth, witnesses })
}
