//! What each instance comes to.
ghost use Rattle.asked_list.specs.Lists.{IsAskedList, disjuncts_in};
ghost use Rattle.instance_outcomes.specs.Answers.{AreKnown, IsAnswered, IsBare, IsFirstStop};
ghost use Rattle.instance_outcomes.specs.Answers.{IsKnownIn, IsOutcomeFor, IsStopOf, IsTally};
ghost use Rattle.instance_outcomes.specs.Answers.{Refuses, header_of};
ghost use Rattle.instance_outcomes.specs.inside.Lists.{IsAskable, IsAskedOf, IsSpelled, stop_at};
ghost use Rattle.part_pulls.specs.Observing.{clocks_seen};
ghost use Rattle.question_outcomes.specs.Telling.{HasSystem};
ghost use Rattle.rctl_class.specs.NamedParts.{disjuncts_uses};
ghost use Rattle.rctl_class.specs.Uses.{first_unknown};
ghost use Rattle.rctl_names.specs.Numbers.{known_in};
ghost use Rattle.rctl_names.specs.Resolving.{CanResolve};
ghost use Rattle.rctl_names.specs.Seen.{names_of};
ghost use Rattle.std.specs.Prelude.{◌≡◌, ◌≤◌, [], length, IfErr, IfOk, None};
ghost use Rattle.pota_base.specs.Limits.{most_instances};

use crate::asking::{AskFault, InstanceFault, list_of};
use crate::counting::{no_tally, with};
use crate::tallied::{Answered, Tally};
use asked_instances::{Instance, Pair};
use asked_list::{AskedList, ask_each};
use event_log::Header;
use part_pulls::Observed;
use pota_base::{Gate, List, NoMemory, Refused, Steps};
use pull_fans::System;
use question_meaning::Form;
use question_outcome::Outcome;
use question_outcomes::outcome_of;
use rctl_names::resolve;
use rctl_parts::{Part, Resolved};
use std::alloc::Global;
use std::sync::ledger::Ledger;
use std::thread::Threads;

// What the list asks, by the numbers of the header's names.
fn asked_of(alloc: Global, list: &AskedList, header: &Header) -> Result<List<List<Part>>, NoMemory>
    requires list { IsAskedList list.now }
    requires some { 1 ≤ length list.now.classed.disjuncts }
    requires header { CanResolve header.now [] }
    requires known { first_unknown (known_in (names_of header.now [])) []
        (disjuncts_uses (disjuncts_in list.now)) ≡ None }
    ensures { IfOk result (IsAskedOf header.now list.now) }
{
    let none = List::new(alloc);
    let resolved = match resolve(alloc, &list.classed, header, &none) {
        Ok(resolved) => resolved,
        Err(Refused::Fault(_)) => unreachable!(),
        Err(Refused::NoMemory) => return Err(NoMemory),
    };
    let Resolved { disjuncts, .. } = resolved;
    ask_each(alloc, list.forms.as_slice(), disjuncts)
}

// The outcome of the question of a list that has no other.
fn outcome_for<R: Threads + Sync, G: Gate, L: Ledger>(
    rt: &R,
    alloc: Global,
    seen: &Observed,
    list: &AskedList,
    form: Form,
    system: &mut Option<System>,
    gate: &G,
    steps: &mut Steps<L>,
) -> Result<Outcome, NoMemory>
    requires seen { IsBare seen.now }
    requires list { IsAskable (header_of seen.now) form list.now }
    requires system { HasSystem (clocks_seen seen.now) system.old }
    ensures outcome { IfOk result (IsOutcomeFor seen.now form (disjuncts_in list.now)) }
    ensures spelled { IfOk result (λ o. IsSpelled (header_of seen.now) (disjuncts_in list.now)) }
    ensures system { HasSystem (clocks_seen seen.now) system.new }
{
    let asked = asked_of(alloc, list, seen.trace.header())?;
    let outcome = outcome_of(rt, alloc, seen, asked.as_slice(), form, system, gate, steps);
    drop(asked);
    outcome
}

// Why the instance of these processes is not answered.
fn stopped(pair: Pair, stop: Refused<AskFault>) -> Refused<InstanceFault>
    ensures { result ≡ stop_at pair stop }
{
    match stop {
        Refused::Fault(why) => Refused::Fault(InstanceFault { pair, why }),
        Refused::NoMemory => Refused::NoMemory,
    }
}

// What an instance comes to.
fn answer_instance<R: Threads + Sync, G: Gate, L: Ledger>(
    rt: &R,
    alloc: Global,
    seen: &Observed,
    instance: Instance,
    system: &mut Option<System>,
    gate: &G,
    steps: &mut Steps<L>,
) -> Result<Answered, Refused<InstanceFault>>
    requires seen { IsBare seen.now }
    requires known { IsKnownIn (header_of seen.now) instance }
    requires system { HasSystem (clocks_seen seen.now) system.old }
    ensures answered { IfOk result (IsAnswered seen.now instance) }
    ensures fault { IfErr result (λ stop. Refuses stop (IsStopOf instance)) }
    ensures system { HasSystem (clocks_seen seen.now) system.new }
{
    let Instance {
        pair,
        text,
        question,
    } = instance;
    let formula = question.formula;
    let form = question.form;
    let list = match list_of(alloc, question) {
        Ok(list) => list,
        Err(stop) => return Err(stopped(pair, stop)),
    };
    let outcome = match outcome_for(rt, alloc, seen, &list, form, system, gate, steps) {
        Ok(outcome) => outcome,
        Err(NoMemory) => {
            drop(list);
            return Err(Refused::NoMemory);
        }
    };
    let AskedList { classed, .. } = list;
    Ok(Answered {
        pair,
        text,
        formula,
        form,
        disjuncts: classed.disjuncts,
        outcome,
    })
}

/// What the instances of a question over processes come to on what was observed, which is without
/// watches. `Fault` is the first of them that can't be asked. It may wait for threads that it
/// joins.
pub fn tally<R: Threads + Sync, G: Gate, L: Ledger>(
    rt: &R,
    alloc: Global,
    seen: &Observed,
    instances: List<Instance>,
    system: &mut Option<System>,
    gate: &G,
    steps: &mut Steps<L>,
) -> Result<Tally, Refused<InstanceFault>>
    requires seen { IsBare seen.now }
    requires few { length instances ≤ most_instances }
    requires known { AreKnown (header_of seen.now) instances }
    requires system { HasSystem (clocks_seen seen.now) system.old }
    ensures tally { IfOk result (IsTally seen.now instances) }
    ensures fault { IfErr result (λ stop. Refuses stop (IsFirstStop instances)) }
    ensures system { HasSystem (clocks_seen seen.now) system.new }
{
    let mut tally = no_tally();
    'instances: for instance in instances.into_vec() {
        match answer_instance(rt, alloc, seen, instance, system, gate, steps) {
            Ok(answered) => tally = with(tally, answered),
            Err(stop) => {
                drop(tally);
                return Err(stop);
            }
        }
    }
    Ok(tally)
}
