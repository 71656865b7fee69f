//! Whether an instance can be asked.
ghost use Rattle.instance_outcomes.specs.Answers.{CannotAsk};
ghost use Rattle.instance_outcomes.specs.inside.Lists.{IsListOf, RefusesAsking};
ghost use Rattle.rctl_class.specs.NamedParts.{AreDisjuncts, disjuncts_of};
ghost use Rattle.std.specs.Prelude.{IfErr, IfOk};

use asked_instances::Pair;
use asked_list::AskedList;
use over_questions::{Barred, barred_in};
use pota_base::Refused;
use question_forms::Question;
use std::alloc::Global;

/// Why an instance can't be asked.
#[derive(Clone, Copy, Debug, PartialEq, Eq)]
pub enum AskFault {
    /// Its formula, which is from this byte on, has a watch or a difference.
    Barred(u32, Barred),
    /// It asks more parts than may be observed.
    TooMany,
}

/// An instance that can't be asked, by the processes that are put in, and why.
#[derive(Clone, Copy, Debug, PartialEq, Eq)]
pub struct InstanceFault {
    pub pair: Pair,
    pub why: AskFault,
}

/// A list of the one question, if it can be asked.
pub fn list_of(alloc: Global, question: Question) -> Result<AskedList, Refused<AskFault>>
    requires question { AreDisjuncts (disjuncts_of question.classed.disjuncts) }
    ensures list { IfOk result (IsListOf question) }
    ensures fault { IfErr result (λ stop. RefusesAsking stop (CannotAsk question)) }
{
    let from = question.formula;
    if let Some(barred) = barred_in(question.classed.disjuncts.as_slice()) {
        drop(question);
        return Err(Refused::Fault(AskFault::Barred(from, barred)));
    }
    match AskedList::new(alloc).add(question) {
        Ok(list) => Ok(list),
        Err(Refused::Fault(_)) => Err(Refused::Fault(AskFault::TooMany)),
        Err(Refused::NoMemory) => Err(Refused::NoMemory),
    }
}
