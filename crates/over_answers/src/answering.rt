//! One question over processes after the other.
ghost use Rattle.instance_outcomes.specs.Answers.{IsBare, header_of};
ghost use Rattle.over_answers.specs.Tallies.{AreNamedBy, AreTallies, IsComeTo, IsFirstStop};
ghost use Rattle.over_answers.specs.Tallies.{IsNamedBy, IsStopOf, Refuses};
ghost use Rattle.over_answers.specs.inside.Answering.{RefusesOne, numbered_stop};
ghost use Rattle.part_pulls.specs.Observing.{clocks_seen};
ghost use Rattle.instance_outcomes.specs.PassedOn.{HasSystem};
ghost use Rattle.std.specs.Prelude.{◌≡◌, ◌≤◌, ◌<◌, length, map, string_bytes, IfErr, IfOk};
ghost use Rattle.pota_base.specs.Limits.{most_processes, most_questions};

use instance_outcomes::{OverStop, Tally, answer_over};
use part_pulls::Observed;
use pota_base::{Gate, List, Refused, Steps};
use pull_fans::System;
use question_instances::Over;
use std::alloc::Global;
use std::sync::ledger::Ledger;
use std::thread::Threads;

/// A question over processes: the names that stand for these, and what its instances come to.
#[derive(Debug, Drop)]
pub struct Tallied {
    pub over: Over,
    pub tally: Tally,
}

/// Why a question over processes has no answer, and its number, from 1.
#[derive(Clone, Copy, Debug, PartialEq, Eq)]
pub struct NumberedStop {
    pub question: u32,
    pub stop: OverStop,
}

// What a question comes to, if it is one over processes.
fn answer_one<R: Threads + Sync, G: Gate, L: Ledger>(
    rt: &R,
    alloc: Global,
    seen: &Observed,
    text: &[u8],
    over: Option<Over>,
    system: &mut Option<System>,
    gate: &G,
    steps: &mut Steps<L>,
) -> Result<Option<Tallied>, Refused<OverStop>>
    requires seen { IsBare seen.now }
    requires procs { length (header_of seen.now).procs ≤ most_processes }
    requires named { IsNamedBy text.now over }
    requires system { HasSystem (clocks_seen seen.now) system.old }
    ensures tallied { IfOk result (IsComeTo seen.now text.now) }
    ensures fault { IfErr result (λ stop. RefusesOne stop (IsStopOf seen.now text.now)) }
    ensures system { HasSystem (clocks_seen seen.now) system.new }
{
    let Some(over) = over else {
        return Ok(None);
    };
    match answer_over(rt, alloc, seen, text, over, system, gate, steps) {
        Ok(tally) => Ok(Some(Tallied { over, tally })),
        Err(stop) => Err(stop),
    }
}

// Why the question at this index has no answer.
fn numbered(index: usize, stop: Refused<OverStop>) -> Refused<NumberedStop>
    requires { index < most_questions }
    ensures { result ≡ numbered_stop index stop }
{
    match stop {
        Refused::Fault(stop) => Refused::Fault(NumberedStop {
            question: index as u32 + 1,
            stop,
        }),
        Refused::NoMemory => Refused::NoMemory,
    }
}

/// The tallies of the questions over processes among these, in their order, on what was observed,
/// which is without watches. `overs` has the names that stand for processes, as the questions have
/// them. `Fault` is the first question that has no answer. It may wait for threads that it joins.
pub fn answer_overs<R: Threads + Sync, G: Gate, L: Ledger>(
    rt: &R,
    alloc: Global,
    seen: &Observed,
    texts: &[String],
    overs: &[Option<Over>],
    gate: &G,
    steps: &mut Steps<L>,
) -> Result<List<Option<Tallied>>, Refused<NumberedStop>>
    requires seen { IsBare seen.now }
    requires procs { length (header_of seen.now).procs ≤ most_processes }
    requires few { length texts.now ≤ most_questions }
    requires named { AreNamedBy (map string_bytes texts.now) overs.now }
    ensures tallies { IfOk result (AreTallies seen.now (map string_bytes texts.now)) }
    ensures fault { IfErr result
        (λ stop. Refuses stop (IsFirstStop seen.now (map string_bytes texts.now))) }
{
    let mut system = None;
    let mut tallies = List::new(alloc);
    for i in 0..texts.len() {
        let text = texts[i].as_bytes();
        match answer_one(rt, alloc, seen, text, overs[i], &mut system, gate, steps) {
            Ok(tallied) => tallies.push(tallied)?,
            Err(stop) => return Err(numbered(i, stop)),
        }
    }
    Ok(tallies)
}
