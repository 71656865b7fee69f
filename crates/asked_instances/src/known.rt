//! Whether a log has the names of a question.
ghost use Rattle.asked_instances.specs.Instances.{IsKnownAs, IsLacking, KnowsNames, LacksName};
ghost use Rattle.question_forms.specs.Questions.{IsQuestionFault, Refuses};
ghost use Rattle.rctl_class.specs.NamedParts.{AreDisjuncts, disjuncts_of};
ghost use Rattle.rctl_names.specs.Resolving.{CanResolve};
ghost use Rattle.std.specs.Prelude.{IfErr, IfNone, IfOk, IfSome, MatchBool};

use event_log::Header;
use pota_base::{List, NoMemory, Refused};
use pota_names::Name;
use question_forms::{Question, QuestionFault, read_question};
use rctl_names::resolve;
use std::alloc::Global;

// Whether each name of the question is known, and no watch is on two processes.
fn has_names(
    alloc: Global,
    question: &Question,
    header: &Header,
    watches: &List<Name>,
) -> Result<bool, NoMemory>
    requires disjuncts { AreDisjuncts (disjuncts_of question.now.classed.disjuncts) }
    requires header { CanResolve header.now watches.now }
    ensures { IfOk result (λ known.
        MatchBool known (KnowsNames header.now watches.now question.now)
        (LacksName header.now watches.now question.now)) }
{
    match resolve(alloc, &question.classed, header, watches) {
        Ok(resolved) => {
            drop(resolved);
            Ok(true)
        }
        Err(Refused::Fault(_)) => Ok(false),
        Err(Refused::NoMemory) => Err(NoMemory),
    }
}

/// The question that the text is, if the header and the watches have all its names.
pub fn known_question(
    alloc: Global,
    text: &[u8],
    header: &Header,
    watches: &List<Name>,
) -> Result<Option<Question>, Refused<QuestionFault>>
    requires header { CanResolve header.now watches.now }
    ensures known { IfOk result
        (λ found. IfSome found (IsKnownAs header.now watches.now text.now)) }
    ensures lacking { IfOk result
        (λ found. IfNone found (IsLacking header.now watches.now text.now)) }
    ensures fault { IfErr result (λ stop. Refuses stop (IsQuestionFault text.now)) }
{
    let question = match read_question(alloc, text) {
        Ok(question) => question,
        Err(stop) => return Err(stop),
    };
    match has_names(alloc, &question, header, watches) {
        Ok(true) => Ok(Some(question)),
        Ok(false) => {
            drop(question);
            Ok(None)
        }
        Err(NoMemory) => {
            drop(question);
            Err(Refused::NoMemory)
        }
    }
}
