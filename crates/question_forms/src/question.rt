//! A question, read.
ghost use Rattle.question_forms.specs.Questions.{IsQuestion, IsQuestionFault, Refuses, place_of};
ghost use Rattle.question_forms.specs.inside.Refused.{refused_from};
ghost use Rattle.question_text.specs.declared.head.Head.{Head as HeadIs};
ghost use Rattle.rctl_grammar.specs.declared.tree.Tree.{Tree as TreeOf};
ghost use Rattle.std.specs.Prelude.{◌≡◌, MatchResult};

use crate::asked::{Asked, ask_formula};
use pota_base::Refused;
use question_meaning::Form;
use question_text::{HeadFault, Span, read_head};
use rctl_class::{Classed, Stop};
use rctl_grammar::FormulaFault;
use rctl_parse::parse;
use std::alloc::Global;

/// A question whose formula its form takes.
#[derive(Debug, Drop)]
pub struct Question {
    /// Where its name is in the text.
    pub name: Option<Span>,
    pub form: Form,
    /// The byte from which on the rest of the text is the formula. Places in `classed` count from
    /// there.
    pub formula: u32,
    /// The disjuncts that the form asks: of the formula, or of its negation.
    pub classed: Classed,
}

/// What is wrong with a question.
#[derive(Clone, Copy, Debug, PartialEq, Eq)]
pub enum QuestionFault {
    /// Its name, or the words of its form.
    Head(HeadFault),
    /// Its formula, which is from this byte on: the text, or what the form takes.
    Formula(u32, FormulaFault),
}

impl QuestionFault {
    /// The byte of the question at which it is, from 0.
    pub fn place(self) -> u64
        ensures { result ≡ place_of self }
    {
        match self {
            QuestionFault::Head(fault) => u64::from(fault.place),
            QuestionFault::Formula(from, fault) => u64::from(from) + u64::from(fault.place),
        }
    }
}

// Why a question whose formula is from this byte on is not read.
fn refused(from: u32, stop: Stop) -> Refused<QuestionFault>
    ensures { result ≡ refused_from from stop }
{
    match stop {
        Refused::Fault(fault) => Refused::Fault(QuestionFault::Formula(from, fault)),
        Refused::NoMemory => Refused::NoMemory,
    }
}

/// Reads a question of at most 8,192 bytes. `Fault` is its first fault: of its name, of the words
/// of its form, of its formula's text, or of what its form takes.
pub fn read_question(alloc: Global, text: &[u8]) -> Result<Question, Refused<QuestionFault>>
    ensures { MatchResult result
        (λ q. (head : HeadIs) × (t : TreeOf) × IsQuestion text.now head t q)
        (λ stop. Refuses stop (IsQuestionFault text.now)) }
{
    let head = match read_head(text) {
        Ok(head) => head,
        Err(fault) => return Err(Refused::Fault(QuestionFault::Head(fault))),
    };
    let formula = match parse(alloc, &text[head.formula as usize..]) {
        Ok(formula) => formula,
        Err(stop) => return Err(refused(head.formula, stop)),
    };
    match ask_formula(alloc, head.asking, formula) {
        Ok(Asked { form, classed }) => Ok(Question {
            name: head.name,
            form,
            formula: head.formula,
            classed,
        }),
        Err(stop) => Err(refused(head.formula, stop)),
    }
}
