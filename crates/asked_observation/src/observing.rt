//! The observation for a list of questions.
ghost use Rattle.asked_list.specs.Lists.{IsAskedList, asked_each, disjuncts_in};
ghost use Rattle.asked_observation.specs.Observed.{IsObservedList, IsUnknownIn, Refuses};
ghost use Rattle.event_log.specs.States.{IsHeader};
ghost use Rattle.observation.specs.Fed.{AreFedFrom};
ghost use Rattle.observation.specs.Growing.{opened_observed};
ghost use Rattle.part_pulls.specs.Observing.{scope_seen};
ghost use Rattle.rctl_names.specs.Numbers.{known_in};
ghost use Rattle.rctl_names.specs.Resolving.{CanResolve};
ghost use Rattle.rctl_names.specs.Seen.{names_of};
ghost use Rattle.rctl_parts.specs.MadeFor.{AreMadeFor};
ghost use Rattle.rctl_parts.specs.Pieces.{disjuncts_of};
ghost use Rattle.std.specs.Prelude.{◌≡◌, ◌≤◌, length, false, IfErr, IfOk};
ghost use Rattle.trace_growth.specs.Growing.{opened_trace};
ghost use Rattle.watch.specs.Saying.{said_by};

use crate::unknown::{UnknownName, unknown_in};
use asked_list::{AskedList, ask_each};
use event_log::Header;
use observation::Observation;
use pota_base::{List, NoMemory, Refused};
use pota_names::Name;
use question_meaning::Form;
use rctl_names::resolve;
use rctl_parts::Resolved;
use std::alloc::Global;
use watch::{Handed, Watch};

/// Questions, and what is observed for all of them.
#[derive(Drop)]
pub struct ObservedList {
    pub list: AskedList,
    pub observation: Observation,
}

// What the forms ask of the disjuncts, for the same watches.
fn asked_of(alloc: Global, forms: &[Form], resolved: Resolved) -> Result<Resolved, NoMemory>
    ensures asked { IfOk result (λ made. disjuncts_of made.disjuncts
        ≡ asked_each forms.now (disjuncts_of resolved.disjuncts)) }
    ensures watches { IfOk result (λ made. made.watch_process ≡ resolved.watch_process) }
{
    let Resolved {
        disjuncts,
        watch_process,
    } = resolved;
    let disjuncts = ask_each(alloc, forms, disjuncts)?;
    Ok(Resolved {
        disjuncts,
        watch_process,
    })
}

// The observation of what the forms ask of disjuncts.
fn observe_asked(
    alloc: Global,
    forms: &[Form],
    header: Header,
    resolved: Resolved,
    watches: Vec<Handed>,
) -> Result<Observation, NoMemory>
    requires header { IsHeader header }
    requires made { AreMadeFor (scope_seen (opened_observed header resolved.watch_process))
        (asked_each forms.now (disjuncts_of resolved.disjuncts)) }
    requires paired { length resolved.watch_process ≡ length watches.items }
    ensures asked { IfOk result (λ made. disjuncts_of made.growing.disjuncts
        ≡ asked_each forms.now (disjuncts_of resolved.disjuncts)) }
    ensures fresh { IfOk result (λ made. (made.growing.seen.trace ≡ opened_trace header)
        × (made.growing.spent ≡ false)) }
    ensures watches { IfOk result (λ made. made.watches.items ≡ watches.items) }
    ensures since_start { IfOk result (λ made. AreFedFrom (said_by answers) watches.items
        made.watches.items made.growing.seen) }
{
    let asked = asked_of(alloc, forms, resolved)?;
    Observation::new(alloc, header, asked, watches)
}

/// An observation without batches for all questions of the list, with the names of a header and of
/// watches. `Fault` is the first name of the questions, one after the other, that is unknown or is
/// a watch on a second process.
pub fn observe_list(
    alloc: Global,
    list: AskedList,
    header: Header,
    names: &List<Name>,
    watches: Vec<Handed>,
) -> Result<ObservedList, Refused<UnknownName>>
    requires list { IsAskedList list }
    requires some { 1 ≤ length list.classed.disjuncts }
    requires header { CanResolve header names.now }
    requires watches { length watches.items ≡ length names.now }
    ensures list { IfOk result (λ made. made.list ≡ list) }
    ensures observed { IfOk result
        (λ made. IsObservedList list names.now made.observation.growing) }
    ensures fresh { IfOk result
        (λ made. (made.observation.growing.seen.trace ≡ opened_trace header)
        × (made.observation.growing.spent ≡ false)) }
    ensures watches { IfOk result (λ made. made.observation.watches.items ≡ watches.items) }
    ensures since_start { IfOk result (λ made. AreFedFrom (said_by answers) watches.items
        made.observation.watches.items made.observation.growing.seen) }
    ensures fault { IfErr result (λ stop. Refuses stop
        (IsUnknownIn (known_in (names_of header names.now)) list)) }
{
    let resolved = match resolve(alloc, &list.classed, &header, names) {
        Ok(resolved) => resolved,
        Err(Refused::Fault(fault)) => {
            let unknown = unknown_in(alloc, list, &header, names, fault)?;
            return Err(Refused::Fault(unknown));
        }
        Err(Refused::NoMemory) => {
            drop(list);
            return Err(Refused::NoMemory);
        }
    };
    match observe_asked(alloc, list.forms.as_slice(), header, resolved, watches) {
        Ok(observation) => Ok(ObservedList { list, observation }),
        Err(NoMemory) => {
            drop(list);
            Err(Refused::NoMemory)
        }
    }
}
