//! Questions, one after the other, with the disjuncts of all.
ghost use Rattle.asked_list.specs.Lists.{Adds, HasRoom, IsAskedList, asked_count};
ghost use Rattle.asked_list.specs.inside.Counts.{Refuses, are_few, capped};
ghost use Rattle.rctl_class.specs.NamedParts.{AreDisjuncts, disjuncts_of};
ghost use Rattle.std.specs.Prelude.{◌≡◌, ◌+◌, ◌++◌, ◌≤◌, [], length, replicate, IfErr, IfOk};
ghost use Rattle.std.specs.Prelude.{OnOk};
ghost use Rattle.pota_base.specs.Limits.{most_disjuncts, most_parts};

use crate::count::asked_count;
use pota_base::{List, MOST_DISJUNCTS, MOST_PARTS, NoMemory, Refused};
use question_forms::Question;
use question_meaning::Form;
use question_text::Span;
use rctl_class::{Classed, NamedPart};
use std::alloc::Global;

/// A form, and which of all disjuncts are those of its question: from this number on, from 0, up to
/// the one before `to`.
#[derive(Clone, Copy, Debug, PartialEq, Eq)]
pub struct AskedRange {
    pub form: Form,
    pub from: u32,
    pub to: u32,
}

/// A question of the list.
#[derive(Clone, Copy, Debug, PartialEq, Eq)]
pub struct Listed {
    /// Where its name is in its text.
    pub name: Option<Span>,
    /// The byte of its text from which on its formula is.
    pub formula: u32,
    pub range: AskedRange,
}

/// The disjuncts or parts of the questions would be more than may be observed together.
#[derive(Clone, Copy, Debug, PartialEq, Eq)]
pub struct TooMany;

/// Questions, and the disjuncts of all of them.
#[derive(Debug, Drop)]
pub struct AskedList {
    pub listed: List<Listed>,
    pub classed: Classed,
    /// The form of each disjunct.
    pub forms: List<Form>,
    /// How many parts are asked.
    pub parts: u32,
}

// Puts disjuncts behind the others.
fn push_all(
    disjuncts: &mut List<List<NamedPart>>,
    more: List<List<NamedPart>>,
) -> Result<(), NoMemory>
    ensures { OnOk result (disjuncts.new ≡ disjuncts.old ++ more) }
{
    'more: for disjunct in more.into_vec() {
        disjuncts.push(disjunct)?;
    }
    Ok(())
}

// Puts the form behind the others, so often.
fn push_form(forms: &mut List<Form>, form: Form, count: usize) -> Result<(), NoMemory>
    ensures { OnOk result (forms.new ≡ forms.old ++ replicate count form) }
{
    for i in 0..count {
        forms.push(form)?;
    }
    Ok(())
}

// Whether so many disjuncts and parts may be observed together, and as many more.
fn are_few(disjuncts: usize, more: usize, parts: u32, count: u32) -> bool
    requires few { disjuncts ≤ most_disjuncts }
    requires some { more ≤ most_disjuncts }
    requires parts { parts ≤ most_parts }
    ensures { result ≡ are_few (disjuncts + more) (parts + count) }
{
    disjuncts + more <= MOST_DISJUNCTS && parts.saturating_add(count) <= MOST_PARTS
}

impl AskedList {
    /// A list without questions. It takes no memory.
    pub fn new(alloc: Global) -> AskedList
        ensures list { IsAskedList result }
        ensures listed { result.listed ≡ [] }
        ensures disjuncts { result.classed.disjuncts ≡ [] }
        ensures forms { result.forms ≡ [] }
    {
        AskedList {
            listed: List::new(alloc),
            classed: Classed {
                disjuncts: List::new(alloc),
            },
            forms: List::new(alloc),
            parts: 0,
        }
    }

    // The list with a question for which there is room.
    fn with(self, question: Question, count: u32) -> Result<AskedList, NoMemory>
        requires few { length self.classed.disjuncts + length question.classed.disjuncts
            ≤ most_disjuncts }
        requires parts { self.parts + count ≤ most_parts }
        ensures adds { IfOk result (Adds self question) }
        ensures parts { IfOk result (λ made. made.parts ≡ self.parts + count) }
    {
        let AskedList {
            mut listed,
            classed,
            mut forms,
            parts,
        } = self;
        let mut disjuncts = classed.disjuncts;
        let more = question.classed.disjuncts;
        let form = question.form;
        let from = disjuncts.len() as u32;
        let to = from + more.len() as u32;
        listed.push(Listed {
            name: question.name,
            formula: question.formula,
            range: AskedRange { form, from, to },
        })?;
        push_form(&mut forms, form, more.len())?;
        push_all(&mut disjuncts, more)?;
        Ok(AskedList {
            listed,
            classed: Classed { disjuncts },
            forms,
            parts: parts + count,
        })
    }

    /// The list with one question more. `Fault` is where there is no room for it.
    pub fn add(self, question: Question) -> Result<AskedList, Refused<TooMany>>
        requires list { IsAskedList self }
        requires question { AreDisjuncts (disjuncts_of question.classed.disjuncts) }
        ensures list { IfOk result (λ made. IsAskedList made) }
        ensures adds { IfOk result (Adds self question) }
        ensures fault { IfErr result (λ stop. Refuses stop (HasRoom self question → ⊥)) }
    {
        let more = question.classed.disjuncts.as_slice();
        let count = asked_count(question.form, more);
        if !are_few(self.classed.disjuncts.len(), more.len(), self.parts, count) {
            return Err(Refused::Fault(TooMany));
        }
        Ok(self.with(question, count)?)
    }
}
