//! Reading a question of either kind.
ghost use Rattle.over_questions.specs.Entries.{IsEntryFault, IsEntryOf, RefusesEntry, place_behind};
ghost use Rattle.over_questions.specs.Entries.{place_of, plain_place};
ghost use Rattle.question_instances.specs.Over.{IsOverIn, over_of};
ghost use Rattle.std.specs.Prelude.{◌≡◌, ◌<◌, ◌^◌, length, IfErr, IfOk, None, Ok, Some};

use crate::reading::{OverQuestionFault, read_over};
use pota_base::Refused;
use question_forms::{Question, QuestionFault, read_question};
use question_instances::{Over, OverFault, over_of};
use std::alloc::Global;

/// A question, by its text.
#[derive(Debug, Drop)]
pub enum Entry {
    /// It is asked of the log.
    One(Question),
    /// It is asked of each two processes, or of each process, which these names stand for.
    Over(Over),
}

/// What is wrong with a question.
#[derive(Clone, Copy, Debug, PartialEq, Eq)]
pub enum EntryFault {
    /// It can't be read.
    One(QuestionFault),
    /// Behind the word `for`.
    For(OverFault),
    /// It can't be asked of processes, which these names stand for.
    Over(Over, OverQuestionFault),
}

// The byte of the text as it was asked, by that of the text without the words that name what stands
// for processes.
fn place_behind(over: Over, place: u64) -> u64
    requires { place < 2 ^ 33 }
    ensures { result ≡ place_behind over place }
{
    if place < u64::from(over.from) {
        return place;
    }
    place + u64::from(over.to.saturating_sub(over.from))
}

// The byte of the text without these words at which the fault is.
fn plain_place(fault: OverQuestionFault) -> u64
    ensures place { result ≡ plain_place fault }
    ensures short { result < 2 ^ 33 }
{
    match fault {
        OverQuestionFault::Question(QuestionFault::Head(fault)) => u64::from(fault.place),
        OverQuestionFault::Question(QuestionFault::Formula(from, fault)) => {
            u64::from(from) + u64::from(fault.place)
        }
        OverQuestionFault::Barred(from, barred) => u64::from(from) + u64::from(barred.place),
    }
}

impl EntryFault {
    /// The byte of the question at which it is, from 0.
    pub fn place(self) -> u64
        ensures { result ≡ place_of self }
    {
        match self {
            EntryFault::One(fault) => fault.place(),
            EntryFault::For(fault) => u64::from(fault.place),
            EntryFault::Over(over, fault) => place_behind(over, plain_place(fault)),
        }
    }
}

// Reads a question that is asked of the log.
fn read_one(alloc: Global, text: &[u8]) -> Result<Entry, Refused<EntryFault>>
    requires { over_of text.now ≡ Ok None }
    ensures entry { IfOk result (IsEntryOf text.now) }
    ensures fault { IfErr result (λ stop. RefusesEntry stop (IsEntryFault text.now)) }
{
    match read_question(alloc, text) {
        Ok(question) => Ok(Entry::One(question)),
        Err(Refused::Fault(fault)) => Err(Refused::Fault(EntryFault::One(fault))),
        Err(Refused::NoMemory) => Err(Refused::NoMemory),
    }
}

// Reads a question that is asked of processes, which these names stand for.
fn read_for(alloc: Global, text: &[u8], over: Over) -> Result<Entry, Refused<EntryFault>>
    requires over { over_of text.now ≡ Ok (Some over) }
    requires within { IsOverIn (length text.now) over }
    ensures entry { IfOk result (IsEntryOf text.now) }
    ensures fault { IfErr result (λ stop. RefusesEntry stop (IsEntryFault text.now)) }
{
    match read_over(alloc, text, over) {
        Ok(()) => Ok(Entry::Over(over)),
        Err(Refused::Fault(fault)) => Err(Refused::Fault(EntryFault::Over(over, fault))),
        Err(Refused::NoMemory) => Err(Refused::NoMemory),
    }
}

/// Reads a question of at most 8,192 bytes. `Fault` is its first fault: of the words that name what
/// stands for processes, or else of the question without them.
pub fn read_entry(alloc: Global, text: &[u8]) -> Result<Entry, Refused<EntryFault>>
    ensures entry { IfOk result (IsEntryOf text.now) }
    ensures fault { IfErr result (λ stop. RefusesEntry stop (IsEntryFault text.now)) }
{
    match over_of(text) {
        Ok(None) => read_one(alloc, text),
        Ok(Some(over)) => read_for(alloc, text, over),
        Err(fault) => Err(Refused::Fault(EntryFault::For(fault))),
    }
}
