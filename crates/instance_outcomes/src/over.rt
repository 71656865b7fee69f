//! What a question over processes comes to.
ghost use Rattle.asked_instances.specs.Instances.{AreInstances, pairs_asked};
ghost use Rattle.instance_outcomes.specs.Answers.{IsBare, header_of};
ghost use Rattle.instance_outcomes.specs.Over.{IsOverStop, IsTallyFor, RefusesOver, source_in};
ghost use Rattle.part_pulls.specs.Observing.{clocks_seen};
ghost use Rattle.question_instances.specs.Over.{IsOverIn};
ghost use Rattle.question_outcomes.specs.Telling.{HasSystem};
ghost use Rattle.std.specs.Prelude.{◌≤◌, length, IfErr, IfOk};
ghost use Rattle.pota_base.specs.Limits.{most_processes};

use crate::answering::tally;
use crate::asking::InstanceFault;
use crate::laws::instances_are_known;
use crate::tallied::Tally;
use asked_instances::{Asked, Instance, instances};
use part_pulls::Observed;
use pota_base::{Gate, List, Refused, Steps};
use pull_fans::System;
use question_forms::QuestionFault;
use question_instances::Over;
use std::alloc::Global;
use std::sync::ledger::Ledger;
use std::thread::Threads;

/// Why a question over processes has no answer.
#[derive(Clone, Copy, Debug, PartialEq, Eq)]
pub enum OverStop {
    /// With names of processes in it the text is no question.
    Text(QuestionFault),
    /// An instance can't be asked.
    Instance(InstanceFault),
    /// There is no instance: no processes have the names that the question uses.
    NoInstance,
}

// The instances of the question.
fn instances_in(
    alloc: Global,
    seen: &Observed,
    text: &[u8],
    over: Over,
) -> Result<List<Instance>, Refused<OverStop>>
    requires seen { IsBare seen.now }
    requires over { IsOverIn (length text.now) over }
    ensures instances { IfOk result (AreInstances (source_in seen.now text.now over)
        (pairs_asked (source_in seen.now text.now over))) }
    ensures some { IfOk result (λ found. 1 ≤ length found) }
    ensures fault { IfErr result
        (λ stop. RefusesOver stop (IsOverStop seen.now text.now over)) }
{
    let watches = List::new(alloc);
    let asked = Asked {
        text,
        over,
        header: seen.trace.header(),
        watches: &watches,
    };
    match instances(alloc, &asked) {
        Ok(found) => {
            if found.len() == 0 {
                return Err(Refused::Fault(OverStop::NoInstance));
            }
            Ok(found)
        }
        Err(Refused::Fault(fault)) => Err(Refused::Fault(OverStop::Text(fault))),
        Err(Refused::NoMemory) => Err(Refused::NoMemory),
    }
}

/// What a question over processes comes to on what was observed, which is without watches: for each
/// pair of different processes, or each process, which have the names that it uses. `Fault` says
/// why there is no answer. It may wait for threads that it joins.
pub fn answer_over<R: Threads + Sync, G: Gate, L: Ledger>(
    rt: &R,
    alloc: Global,
    seen: &Observed,
    text: &[u8],
    over: Over,
    system: &mut Option<System>,
    gate: &G,
    steps: &mut Steps<L>,
) -> Result<Tally, Refused<OverStop>>
    requires seen { IsBare seen.now }
    requires procs { length (header_of seen.now).procs ≤ most_processes }
    requires over { IsOverIn (length text.now) over }
    requires system { HasSystem (clocks_seen seen.now) system.old }
    ensures tally { IfOk result (IsTallyFor seen.now text.now over) }
    ensures fault { IfErr result
        (λ stop. RefusesOver stop (IsOverStop seen.now text.now over)) }
    ensures system { HasSystem (clocks_seen seen.now) system.new }
{
    instances_are_known();
    let found = match instances_in(alloc, seen, text, over) {
        Ok(found) => found,
        Err(stop) => return Err(stop),
    };
    match tally(rt, alloc, seen, found, system, gate, steps) {
        Ok(tally) => Ok(tally),
        Err(Refused::Fault(fault)) => Err(Refused::Fault(OverStop::Instance(fault))),
        Err(Refused::NoMemory) => Err(Refused::NoMemory),
    }
}
