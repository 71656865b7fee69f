//! A whole log, observed for a list of questions.
ghost use Rattle.asked_list.specs.Lists.{IsAskedList};
ghost use Rattle.asked_log.specs.Logs.{CanObserve, IsObservedOn, Stops};
ghost use Rattle.asked_log.specs.Watches.{AreWatches, names_of, said_by};
ghost use Rattle.std.specs.Prelude.{◌≡◌, ◌≤◌, length, IfErr, IfOk};

use crate::observing::observe_all;
use asked_list::AskedList;
use asked_observation::{ObservedList, UnknownName, observe_list};
use event_log::Log;
use fault_kinds::Refusal;
use log_input::Places;
use pota_base::{List, NoMemory, Refused};
use pota_names::Name;
use std::alloc::Global;
use watch::{Handed, Watch};

/// Why questions are not observed on a log.
#[derive(Clone, Copy, Debug, PartialEq, Eq)]
pub enum Stop {
    /// The log does not have this name.
    Unknown(UnknownName),
    /// A counter falls.
    Fall(Refusal),
    /// There was no memory.
    Memory,
}

// The names of watches.
fn copy_names(alloc: Global, watches: &[Handed]) -> Result<List<Name>, NoMemory>
    ensures { IfOk result (λ names. names ≡ names_of watches.now) }
{
    let mut names = List::new(alloc);
    for handed in watches {
        names.push(handed.name.copy(alloc)?)?;
    }
    Ok(names)
}

/// The questions of the list on the log, as they are observed together, with these watches. A fault
/// at a line of the log is told by its places.
pub fn observe_log(
    alloc: Global,
    list: AskedList,
    watches: Vec<Handed>,
    log: Log,
    places: &Places,
) -> Result<ObservedList, Stop>
    requires list { IsAskedList list }
    requires some { 1 ≤ length list.classed.disjuncts }
    requires watches { AreWatches watches.items }
    requires log { CanObserve log }
    ensures observed { IfOk result (IsObservedOn (said_by answers) watches.items list log) }
    ensures stopped { IfErr result (Stops (names_of watches.items) list log places.now) }
{
    let Ok(names) = copy_names(alloc, watches.as_slice()) else {
        drop(list);
        return Err(Stop::Memory);
    };
    let Log { header, batches } = log;
    let opened = match observe_list(alloc, list, header, &names, watches) {
        Ok(opened) => opened,
        Err(Refused::Fault(unknown)) => return Err(Stop::Unknown(unknown)),
        Err(Refused::NoMemory) => return Err(Stop::Memory),
    };
    let ObservedList { list, observation } = opened;
    match observe_all(observation, batches) {
        Ok(observation) => Ok(ObservedList { list, observation }),
        Err(Refused::Fault(fall)) => {
            drop(list);
            Err(Stop::Fall(places.place(fall)))
        }
        Err(Refused::NoMemory) => {
            drop(list);
            Err(Stop::Memory)
        }
    }
}
