//! The questions of a command line, of both kinds, read into one list.
ghost use Rattle.ask_questions.specs.Entries.{CanBeObserved, IsFirstFault};
ghost use Rattle.ask_questions.specs.inside.Added.{AreAdded, AreAddedTo, AreRead, AreSized};
ghost use Rattle.ask_questions.specs.inside.Added.{HasNoRoomIn, IsSized, IsTooMany, RefusesAdding};
ghost use Rattle.ask_questions.specs.inside.Added.{Refuses, many_at, numbered_fault};
ghost use Rattle.asked_list.specs.Lists.{IsAskedList};
ghost use Rattle.over_questions.specs.declared.entry.Entry.{Entry as EntryIs};
ghost use Rattle.std.specs.Prelude.{◌≡◌, ◌≤◌, ◌<◌, ◌++◌, ◌∷◌, [], length, map, string_bytes};
ghost use Rattle.std.specs.Prelude.{IfErr, IfOk, List as ListOf};
ghost use Rattle.pota_base.specs.Limits.{most_questions};

use crate::observable::observable;
use asked_list::{AskedList, TooMany};
use over_questions::{Entry, EntryFault, read_entry};
use pota_base::{List, NoMemory, Refused};
use question_instances::Over;
use std::alloc::Global;

/// Questions of both kinds.
#[derive(Debug, Drop)]
pub struct AskedQuestions {
    /// Those that are asked of the log, in one list.
    pub list: AskedList,
    /// For each question, in their order, the names that stand for processes, if it has any.
    pub overs: List<Option<Over>>,
}

/// What is wrong with a question among others.
#[derive(Clone, Copy, Debug, PartialEq, Eq)]
pub enum QuestionsFault {
    /// It can't be read.
    Question(EntryFault),
    /// With those before it there are more disjuncts or parts than may be observed together.
    TooMany,
}

/// A fault, and the number of its question, from 1.
#[derive(Clone, Copy, Debug, PartialEq, Eq)]
pub struct NumberedFault {
    pub question: u32,
    pub fault: QuestionsFault,
}

// Why the question at this index is not read.
fn refused(index: usize, stop: Refused<EntryFault>) -> Refused<NumberedFault>
    requires { index < most_questions }
    ensures { result ≡ numbered_fault index stop }
{
    match stop {
        Refused::Fault(fault) => Refused::Fault(NumberedFault {
            question: index as u32 + 1,
            fault: QuestionsFault::Question(fault),
        }),
        Refused::NoMemory => Refused::NoMemory,
    }
}

// Reads each text.
fn read_all(alloc: Global, texts: &[String]) -> Result<List<Entry>, Refused<NumberedFault>>
    requires { length texts.now ≤ most_questions }
    ensures read { IfOk result (AreRead (map string_bytes texts.now)) }
    ensures fault { IfErr result
        (λ stop. Refuses stop (IsFirstFault (map string_bytes texts.now))) }
{
    let mut entries = List::new(alloc);
    for i in 0..texts.len() {
        match read_entry(alloc, texts[i].as_bytes()) {
            Ok(entry) => entries.push(entry)?,
            Err(stop) => return Err(refused(i, stop)),
        }
    }
    Ok(entries)
}

// Why the question of this number has no room.
fn too_many(question: u32, stop: Refused<TooMany>) -> Refused<NumberedFault>
    ensures { result ≡ many_at question stop }
{
    match stop {
        Refused::Fault(_) => Refused::Fault(NumberedFault {
            question,
            fault: QuestionsFault::TooMany,
        }),
        Refused::NoMemory => Refused::NoMemory,
    }
}

// The list with the question, if it is asked of the log, and the names that stand for processes
// behind the others. `Fault` is where there is no room for it.
#[tactic(auto, using(crate::proofs::Texts::over_added))]
fn add_entry(
    list: AskedList,
    overs: &mut List<Option<Over>>,
    entry: Entry,
) -> Result<AskedList, Refused<TooMany>>
    requires list { IsAskedList list }
    requires sized { IsSized entry }
    ensures added { IfOk result (λ longer. (entries : ListOf EntryIs)
        → AreAddedTo list entries overs.old → AreAddedTo longer (entries ++ entry ∷ []) overs.new) }
    ensures list { IfOk result (λ longer. IsAskedList longer) }
    ensures fault { IfErr result (λ stop. RefusesAdding stop (HasNoRoomIn list entry)) }
{
    match entry {
        Entry::One(question) => {
            let longer = list.add(question)?;
            match overs.push(None) {
                Ok(()) => Ok(longer),
                Err(NoMemory) => {
                    drop(longer);
                    Err(Refused::NoMemory)
                }
            }
        }
        Entry::Over(over) => match overs.push(Some(over)) {
            Ok(()) => Ok(list),
            Err(NoMemory) => {
                drop(list);
                Err(Refused::NoMemory)
            }
        },
    }
}

// The list of these questions. `Fault` is the first one for which there is no room.
fn list_all(alloc: Global, entries: List<Entry>) -> Result<AskedQuestions, Refused<NumberedFault>>
    requires few { length entries ≤ most_questions }
    requires sized { AreSized entries }
    ensures added { IfOk result (AreAdded entries) }
    ensures fault { IfErr result (λ stop. Refuses stop (IsTooMany entries)) }
{
    let mut list = AskedList::new(alloc);
    let mut overs = List::new(alloc);
    let mut number: u32 = 1;
    'entries: for entry in entries.into_vec() {
        match add_entry(list, &mut overs, entry) {
            Ok(longer) => list = longer,
            Err(stop) => return Err(too_many(number, stop)),
        }
        number += 1;
    }
    Ok(AskedQuestions { list, overs })
}

/// Reads at most 64 questions of both kinds, for which a log can be observed. `Fault` is the first
/// one: that of the first text that is no question, or else the first question for which there is
/// no room.
pub fn read_questions(
    alloc: Global,
    texts: &[String],
) -> Result<AskedQuestions, Refused<NumberedFault>>
    requires { length texts.now ≤ most_questions }
    ensures asked { IfOk result (CanBeObserved (map string_bytes texts.now)) }
    ensures fault { IfErr result
        (λ stop. Refuses stop (IsFirstFault (map string_bytes texts.now))) }
{
    let entries = read_all(alloc, texts)?;
    let AskedQuestions { list, overs } = match list_all(alloc, entries) {
        Ok(asked) => asked,
        Err(stop) => return Err(stop),
    };
    let list = observable(alloc, list)?;
    Ok(AskedQuestions { list, overs })
}
