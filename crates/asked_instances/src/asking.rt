//! The texts of a question over processes.
ghost use Rattle.asked_instances.specs.Instances.{AreInstances, IsFaultFor, pairs_asked};
ghost use Rattle.asked_instances.specs.Instances.{pairs_below, pairs_of, pairs_with, renaming_for};
ghost use Rattle.asked_instances.specs.Instances.{singles_below, source_of, text_for};
ghost use Rattle.asked_instances.specs.inside.Adding.{AddsFor, CanName};
ghost use Rattle.question_forms.specs.Questions.{IsQuestionFault, Refuses};
ghost use Rattle.question_instances.specs.Instances.{renaming_of};
ghost use Rattle.question_instances.specs.Over.{IsOverIn, IsSpanIn};
ghost use Rattle.rctl_names.specs.Resolving.{CanResolve};
ghost use Rattle.std.specs.List.{AllByRecursion};
ghost use Rattle.std.specs.Prelude.{◌≡◌, ◌++◌, ◌<◌, length, IfErr, IfOk, OnOk};

use crate::known::known_question;
use event_log::Header;
use pota_base::{Bytes, List, NoMemory, Refused};
use pota_names::Name;
use question_forms::{Question, QuestionFault};
use question_instances::{Naming, Over, instance_of};
use question_text::Span;
use std::alloc::Global;

/// The processes that are put in, by their numbers.
#[derive(Clone, Copy, Debug, PartialEq, Eq)]
pub struct Pair {
    pub first: u32,
    pub second: Option<u32>,
}

/// The question for some processes.
#[derive(Debug, Drop)]
pub struct Instance {
    pub pair: Pair,
    pub text: Bytes,
    /// The question that the text is.
    pub question: Question,
}

/// A question over processes, and a log's header with the names of watches.
#[derive(Clone, Copy)]
pub struct Asked<'a> {
    pub text: &'a [u8],
    pub over: Over,
    pub header: &'a Header,
    pub watches: &'a List<Name>,
}

// Puts pairs with this first process behind those that are there.
fn push_with(pairs: &mut List<Pair>, first: u32, procs: u32) -> Result<(), NoMemory>
    ensures { OnOk result (pairs.new ≡ pairs.old ++ pairs_with first procs) }
{
    for second in 0..procs {
        if first != second {
            pairs.push(Pair {
                first,
                second: Some(second),
            })?;
        }
    }
    Ok(())
}

// Each two processes.
#[tactic(auto, using(crate::proofs::Pairs::two_can))]
fn all_pairs(alloc: Global, procs: u32) -> Result<List<Pair>, NoMemory>
    ensures can { IfOk result (AllByRecursion (CanName procs)) }
    ensures pairs { IfOk result (λ pairs. pairs ≡ pairs_below procs procs) }
{
    let mut pairs = List::new(alloc);
    for first in 0..procs {
        push_with(&mut pairs, first, procs)?;
    }
    Ok(pairs)
}

// Each process.
#[tactic(auto, using(crate::proofs::Pairs::each_can))]
fn singles(alloc: Global, procs: u32) -> Result<List<Pair>, NoMemory>
    ensures can { IfOk result (AllByRecursion (CanName procs)) }
    ensures pairs { IfOk result (λ pairs. pairs ≡ singles_below procs) }
{
    let mut pairs = List::new(alloc);
    for first in 0..procs {
        pairs.push(Pair {
            first,
            second: None,
        })?;
    }
    Ok(pairs)
}

// The processes that are asked about.
fn pairs_of(alloc: Global, second: Option<Span>, procs: u32) -> Result<List<Pair>, NoMemory>
    ensures can { IfOk result (AllByRecursion (CanName procs)) }
    ensures pairs { IfOk result (λ pairs. pairs ≡ pairs_of second procs) }
{
    match second {
        Some(_) => all_pairs(alloc, procs),
        None => singles(alloc, procs),
    }
}

impl Asked<'_> {
    // A process for the name that stands there.
    fn naming(&self, span: Span, process: u32) -> Naming<'_>
        requires span { IsSpanIn (length self.now.text.now) span }
        requires process { process < length self.now.header.now.procs }
        ensures { renaming_of result ≡ renaming_for (source_of self.now) span process }
    {
        Naming {
            word: &self.text[span.from as usize..span.to as usize],
            process: self.header.procs.get(process as usize).as_bytes(),
        }
    }

    // The question for these processes.
    fn text_for(&self, alloc: Global, pair: Pair) -> Result<Bytes, NoMemory>
        requires over { IsOverIn (length self.now.text.now) self.now.over }
        requires pair { CanName (length self.now.header.now.procs) pair }
        ensures { IfOk result (λ text. text ≡ text_for (source_of self.now) pair) }
    {
        let first = self.naming(self.over.first, pair.first);
        let (Some(span), Some(process)) = (self.over.second, pair.second) else {
            return instance_of(alloc, self.text, self.over, &[first]);
        };
        let second = self.naming(span, process);
        instance_of(alloc, self.text, self.over, &[first, second])
    }

    // Puts the question for these processes behind those that are there, if each name is known.
    fn push_for(
        &self,
        alloc: Global,
        pair: Pair,
        instances: &mut List<Instance>,
    ) -> Result<(), Refused<QuestionFault>>
        requires over { IsOverIn (length self.now.text.now) self.now.over }
        requires header { CanResolve self.now.header.now self.now.watches.now }
        requires pair { CanName (length self.now.header.now.procs) pair }
        ensures adds { OnOk result
            (AddsFor (source_of self.now) pair instances.old instances.new) }
        ensures fault { IfErr result
            (λ stop. Refuses stop (IsQuestionFault (text_for (source_of self.now) pair))) }
    {
        let text = self.text_for(alloc, pair)?;
        match known_question(alloc, text.as_slice(), self.header, self.watches) {
            Ok(Some(question)) => Ok(instances.push(Instance {
                pair,
                text,
                question,
            })?),
            Ok(None) => Ok(()),
            Err(stop) => Err(stop),
        }
    }
}

/// The question for each two different processes of the header, or for each one where it has one
/// name for a process, of which each name is known. `Fault` is that of the first of these texts
/// that is no question.
#[tactic(auto, using(crate::proofs::Pairs::one_more, crate::proofs::Pairs::fault_behind))]
pub fn instances(alloc: Global, asked: &Asked<'_>) -> Result<List<Instance>, Refused<QuestionFault>>
    requires over { IsOverIn (length asked.now.text.now) asked.now.over }
    requires header { CanResolve asked.now.header.now asked.now.watches.now }
    ensures instances { IfOk result
        (AreInstances (source_of asked.now) (pairs_asked (source_of asked.now))) }
    ensures fault { IfErr result (λ stop. Refuses stop (IsFaultFor (source_of asked.now))) }
{
    let procs = asked.header.procs.len() as u32;
    let pairs = pairs_of(alloc, asked.over.second, procs)?;
    let mut instances = List::new(alloc);
    for pair in pairs.as_slice() {
        match asked.push_for(alloc, *pair, &mut instances) {
            Ok(()) => {}
            Err(stop) => return Err(stop),
        }
    }
    Ok(instances)
}
