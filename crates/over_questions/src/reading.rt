//! Reading a question over processes.
ghost use Rattle.over_questions.specs.Reading.{IsOverFault, IsOverQuestion, Refuses, plain_text};
ghost use Rattle.question_forms.specs.declared.question.Question.{Question as QuestionIs};
ghost use Rattle.question_instances.specs.Over.{IsOverIn};
ghost use Rattle.std.specs.Prelude.{◌≡◌, length, IfErr, IfOk};

use crate::barred::{Barred, barred_in};
use pota_base::{Bytes, NoMemory, Refused};
use question_forms::{Question, QuestionFault, read_question};
use question_instances::{Over, instance_of};
use std::alloc::Global;

/// What is wrong with a question over processes, by its text without the words that name what
/// stands for processes.
#[derive(Clone, Copy, Debug, PartialEq, Eq)]
pub enum OverQuestionFault {
    /// That text is no question.
    Question(QuestionFault),
    /// Its formula, which is from this byte on, has what a question over processes may not have.
    Barred(u32, Barred),
}

// The text without the words that name what stands for processes.
fn plain_text(alloc: Global, text: &[u8], over: Over) -> Result<Bytes, NoMemory>
    requires over { IsOverIn (length text.now) over }
    ensures { IfOk result (λ made. made ≡ plain_text text.now over) }
{
    instance_of(alloc, text, over, &[])
}

/// Reads a question over processes. `Fault` is that of its text without the words that name what
/// stands for processes, or else the first watch or difference in it.
pub fn read_over(alloc: Global, text: &[u8], over: Over) -> Result<(), Refused<OverQuestionFault>>
    requires over { IsOverIn (length text.now) over }
    ensures question { IfOk result (λ done. (q : QuestionIs) × IsOverQuestion text.now over q) }
    ensures fault { IfErr result (λ stop. Refuses stop (IsOverFault text.now over)) }
{
    let plain = plain_text(alloc, text, over)?;
    let question = match read_question(alloc, plain.as_slice()) {
        Ok(question) => question,
        Err(Refused::Fault(fault)) => {
            return Err(Refused::Fault(OverQuestionFault::Question(fault)));
        }
        Err(Refused::NoMemory) => return Err(Refused::NoMemory),
    };
    let from = question.formula;
    let barred = barred_in(question.classed.disjuncts.as_slice());
    drop(question);
    match barred {
        Some(barred) => Err(Refused::Fault(OverQuestionFault::Barred(from, barred))),
        None => Ok(()),
    }
}
