//! A log and its certificate, read one behind the other.
ghost use Rattle.std.specs.Prelude.{◌≡◌, ◌≢◌, ℕ, List as ListOf, IfOk, OnErr, Option};
ghost use Rattle.rctl_grammar.specs.declared.tree.Tree.{Tree};
ghost use Rattle.pota_base.specs.Changes.{change_of, of_source};
ghost use Rattle.input_reading.specs.Intakes.{ReadsShort};
ghost use Rattle.log_rules.specs.Judgement.{waiting};
ghost use Rattle.log_check.specs.Aims.{Aim, said_by};
ghost use Rattle.log_check.specs.Checking.{IsCheckOf};
ghost use Rattle.log_part.specs.Reading.{HasReadFront};
ghost use Rattle.verify_answers.specs.Asking.{AsksAbout, IsFormulaOf};
ghost use Rattle.verify_top.specs.Asking.{aim_for};
ghost use Rattle.verify_top.specs.Verifying.{Answers};

use certificate::an_accepted_certificate_tells_the_truth;
use fault_line::Fault;
use input_reading::End;
use log_check::LogCheck;
use log_part::{Front, LogPart, read_on};
use pota_base::{NoMemory, Source};
use stated_formula::Stated;
use std::alloc::Global;
use std::marker::Brand;
use std::sync::ledger::Blank;
use verify_answers::{Answer, judge_certificate};
use watch::{Handed, Watch};

// A check of the formula on a log that no item came of yet, where nothing is a watch.
fn unwatched_check(alloc: Global, stated: Stated) -> Result<LogCheck, NoMemory>
    requires { (words : ListOf (ListOf ℕ)) × IsFormulaOf words stated }
    ensures { IfOk result (λ check. IsCheckOf (said_by answers) (aim_for stated.formula.tree)
        check waiting) }
{
    let watches: Vec<Handed> = Vec::new(alloc);
    LogCheck::new(alloc, stated, watches)
}

// Reads the log at the front of the input.
fn read_front<S: Source>(alloc: Global, check: LogCheck, input: &mut S) -> Result<Front, NoMemory>
    requires { (aim : Aim) × IsCheckOf (said_by answers) aim check waiting }
    ensures front { IfOk result (λ front. (aim : Aim) → IsCheckOf (said_by answers) aim check
        waiting → HasReadFront (said_by answers) aim (of_source S.Source input.old input.new)
        front) }
    ensures short { OnErr result (ReadsShort (of_source S.Source input.old input.new)) }
    ensures calm { result ≢ Ok Front.Failed → S.faults input.new ≡ S.faults input.old }
{
    let mut part = LogPart::new(alloc, check);
    match read_on(alloc, input, &mut part) {
        Ok(End::Done) => Ok(part.done()),
        Ok(End::Ended) => Ok(part.cut_off()),
        Ok(End::Failed) => {
            drop(part);
            Ok(Front::Failed)
        }
        Err(short) => {
            drop(part);
            Err(short)
        }
    }
}

// Answers by the log that was read, and by the certificate behind it.
fn judge_front<S: Source>(alloc: Global, front: Front, input: &mut S) -> Answer
    requires { (tree : Tree) × (left : Option (ListOf ℕ)) × (faults : ℕ) × HasReadFront
        (said_by answers) (aim_for tree)
        (change_of left (S.left input.old) faults (S.faults input.old)) front }
    ensures answers { (words : ListOf (ListOf ℕ)) (tree : Tree) (left : Option (ListOf ℕ))
        (faults : ℕ) → AsksAbout words tree → HasReadFront (said_by answers) (aim_for tree)
        (change_of left (S.left input.old) faults (S.faults input.old)) front → Answers
        (change_of left (S.left input.new) faults (S.faults input.new)) words result }
    ensures failed { front ≡ Front.Failed → result ≡ Answer.Faulty Fault.Read }
    ensures calm { result ≢ Answer.Faulty Fault.Read → S.faults input.new ≡ S.faults input.old }
{
    match front {
        Front::Whole(check, rest) => {
            an_accepted_certificate_tells_the_truth();
            let checked = check.into_observed();
            judge_certificate::<Brand, S>(Blank::new(1), alloc, checked, rest.as_slice(), input)
        }
        Front::Refused(refusal) => Answer::Faulty(Fault::of_refusal(refusal)),
        Front::Failed => Answer::Faulty(Fault::Read),
    }
}

/// Judges the log that the source has, and the certificate behind it.
pub fn judge_input<S: Source>(alloc: Global, stated: Stated, input: &mut S) -> Answer
    requires { (words : ListOf (ListOf ℕ)) × IsFormulaOf words stated }
    ensures answers { (words : ListOf (ListOf ℕ)) → IsFormulaOf words stated → Answers
        (of_source S.Source input.old input.new) words result }
    ensures calm { result ≢ Answer.Faulty Fault.Read → S.faults input.new ≡ S.faults input.old }
{
    let Ok(check) = unwatched_check(alloc, stated) else {
        return Answer::Faulty(Fault::Memory);
    };
    match read_front(alloc, check, input) {
        Ok(front) => judge_front(alloc, front, input),
        Err(_) => Answer::Faulty(Fault::Memory),
    }
}
