//! The certificate of a formula on a log that is read.
ghost use Rattle.pota_base.specs.Blanks.{IsBlankOf};
ghost use Rattle.std.specs.Prelude.{◌≡◌, ◌<◌, ℕ, false, List as ListOf, IfOk};
ghost use Rattle.pota_base.specs.Changes.{of_sink, of_source};
ghost use Rattle.trace_growth.specs.Growing.{IsTrace};
ghost use Rattle.rctl_grammar.specs.declared.tree.Tree.{Tree};
ghost use Rattle.rctl_parts.specs.MadeFor.{AreMadeFor};
ghost use Rattle.rctl_parts.specs.Pieces.{disjuncts_of};
ghost use Rattle.part_pulls.specs.Counters.{CountersRise};
ghost use Rattle.part_pulls.specs.Observing.{IsReady, scope_seen};
ghost use Rattle.command_words.specs.declared.request.Task.TheVariants.{Read};
ghost use Rattle.call_request.specs.Questions.{AsksFor};
ghost use Rattle.stated_formula.specs.Stating.{IsStated};
ghost use Rattle.stated_formula.specs.declared.formula.Stated.{Stated as StatedIs};
ghost use Rattle.log_rules.specs.Judgement.{Judgement, Prefix, waiting};
ghost use Rattle.batch_answers.specs.PassedOn.{HasClosed, IsCheckOf};
ghost use Rattle.batch_answers.specs.PassedOn.{Aim, said_by};
ghost use Rattle.log_answers.specs.Calm.{IsCalmUnlessRead};
ghost use Rattle.certificate_lines.specs.Spelling.{formula_line};
ghost use Rattle.call_promise.specs.Asking.{Handing, certifying};
ghost use Rattle.call_promise.specs.Run.{Ran};
ghost use Rattle.certificate_answers.specs.inside.Certifying.{aim_for, Certifies, HasCertified};
ghost use Rattle.certificate_answers.specs.inside.Certifying.{IsLogSeen};
ghost use Rattle.certificate_answers.specs.inside.Certifying.{PutsCertificate, verdict_of};
ghost use Rattle.batch_answers.specs.Outcome.{outcome_of};

use batch_answers::{CheckedLog, ReportedLog, read_log};
use call_options::Shown;
use certify::{certificates_tell_the_truth, certify};
use log_answers::{Checking, Means, Stop, StopCause, Verdict};
use pota_base::{Bytes, Failed, Gate, List, NoMemory, Sink, Source, Steps};
use stated_formula::Stated;
use std::alloc::Global;
use std::marker::Brand;
use std::sync::ledger::{Blank, Ledger};
use std::thread::Threads;
use watch::{Handed, Watch};

// The line of the formula with this text.
fn formula_line(alloc: Global, text: &[u8]) -> Result<Bytes, NoMemory>
    ensures { IfOk result (λ line. line ≡ formula_line text.now) }
{
    let mut line = List::new(alloc);
    line.extend_from_slice(b"formula ")?;
    line.extend_from_slice(text)?;
    Ok(line)
}

// How the writing of a certificate of so many batches ended.
fn verdict_of(ended: Result<bool, Failed>, batches: u32) -> Result<Verdict, Stop>
    ensures { result ≡ verdict_of ended batches }
{
    match ended {
        Ok(truth) => Ok(Verdict { batches, truth }),
        Err(_) => Err(Stop {
            batches,
            cause: StopCause::Write,
        }),
    }
}

// Writes the certificate of the formula that a log was observed for, whose line this is.
fn put_certificate<O: Sink>(
    alloc: Global,
    checked: CheckedLog,
    line: &[u8],
    batches: u32,
    out: &mut O,
) -> Result<Verdict, Stop>
    requires ready { IsReady checked.seen }
    requires made { AreMadeFor (scope_seen checked.seen) (disjuncts_of checked.disjuncts) }
    requires rise { CountersRise checked.seen (disjuncts_of checked.disjuncts) }
    ensures { PutsCertificate (of_sink O.Sink out.old out.new) checked.seen
        (disjuncts_of checked.disjuncts) line.now batches result }
{
    let CheckedLog {
        stated,
        seen,
        disjuncts,
    } = checked;
    drop(stated);
    let told = certify(alloc, seen, disjuncts.as_slice(), line, out);
    drop(disjuncts);
    match told {
        Ok(ended) => verdict_of(ended, batches),
        Err(_) => Err(Stop::without_memory()),
    }
}

// Writes the certificate of a log of so many batches, and gives its verdict.
fn write_certificate<O: Sink>(
    alloc: Global,
    checked: CheckedLog,
    batches: u32,
    out: &mut O,
) -> Result<Verdict, Stop>
    requires ready { IsReady checked.seen }
    requires trace { IsTrace checked.seen.trace.states }
    requires made { AreMadeFor (scope_seen checked.seen) (disjuncts_of checked.disjuncts) }
    requires rise { CountersRise checked.seen (disjuncts_of checked.disjuncts) }
    ensures { (t : Tree) (log : Prefix) → IsLogSeen t log checked → Certifies
        (of_sink O.Sink out.old out.new) t batches log result }
{
    certificates_tell_the_truth();
    let Ok(line) = formula_line(alloc, checked.stated.text.as_slice()) else {
        drop(checked);
        return Err(Stop::without_memory());
    };
    put_certificate(alloc, checked, line.as_slice(), batches, out)
}

// Writes the certificate of the log that was read to its end.
fn certify_read<L: Ledger, O: Sink>(
    alloc: Global,
    checking: Checking<L>,
    out: &mut O,
) -> Result<Verdict, Stop>
    requires { (aim : Aim) × (j : Judgement) × (log : Prefix)
        × IsCheckOf (said_by answers) aim checking.check j × HasClosed j log }
    ensures { (s : StatedIs) (text : ListOf ℕ) → IsStated text s → (j : Judgement) (log : Prefix)
        → IsCheckOf (said_by answers) (aim_for s) checking.check j → HasClosed j log → Certifies
        (of_sink O.Sink out.old out.new) s.formula.tree checking.check.log.intake.batches log
        result }
{
    let Checking { check, .. } = checking;
    let batches = check.log.intake.batches;
    write_certificate(alloc, check.into_observed(), batches, out)
}

// Reads the log to its end, and writes its certificate.
fn certify_log<R: Threads + Sync, G: Gate, L: Ledger, S: Source, O: Sink>(
    means: &Means<'_, R, G>,
    checking: Checking<L>,
    log: &mut S,
    out: &mut O,
) -> Result<Verdict, Stop>
    requires last { checking.each_batch ≡ false }
    requires check { (s : StatedIs) × (text : ListOf ℕ) × IsStated text s
        × IsCheckOf (said_by answers) (aim_for s) checking.check waiting }
    ensures certifies { (s : StatedIs) (text : ListOf ℕ) → IsStated text s → IsCheckOf
        (said_by answers) (aim_for s) checking.check waiting → HasCertified
        (of_source S.Source log.old log.new) (of_sink O.Sink out.old out.new) (aim_for s)
        s.formula.tree result }
    ensures calm { IsCalmUnlessRead (S.faults log.old) (S.faults log.new) result }
{
    let mut checking = checking;
    match read_log(means, &mut checking, log, out) {
        Ok(()) => certify_read(means.alloc, checking, out),
        Err(stop) => {
            drop(checking);
            Err(stop)
        }
    }
}

// A check of the formula on a log that no item came of yet, where nothing is a watch.
fn unwatched_check(alloc: Global, stated: Stated) -> Result<ReportedLog, NoMemory>
    requires { (text : ListOf ℕ) × IsStated text stated }
    ensures { IfOk result (λ check. IsCheckOf (said_by answers) (aim_for stated) check waiting) }
{
    let watches: Vec<Handed> = Vec::new(alloc);
    let shown = Shown {
        slice: false,
        witness: false,
    };
    ReportedLog::new(alloc, stated, shown, watches)
}

// Certifies the log whose text the source has, on one thread.
fn certify_text<R: Threads + Sync, G: Gate, L: Ledger, S: Source, O: Sink>(
    blank: Blank,
    means: &Means<'_, R, G>,
    check: ReportedLog,
    log: &mut S,
    out: &mut O,
) -> Result<Verdict, Stop>
    requires blank { IsBlankOf L.name L.parts blank }
    requires check { (s : StatedIs) × (text : ListOf ℕ) × IsStated text s
        × IsCheckOf (said_by answers) (aim_for s) check waiting }
    ensures certifies { (s : StatedIs) (text : ListOf ℕ) → IsStated text s → IsCheckOf
        (said_by answers) (aim_for s) check waiting → HasCertified
        (of_source S.Source log.old log.new) (of_sink O.Sink out.old out.new) (aim_for s)
        s.formula.tree result }
    ensures calm { IsCalmUnlessRead (S.faults log.old) (S.faults log.new) result }
{
    let checking = Checking {
        check,
        each_batch: false,
        steps: Steps::<L>::new(blank),
    };
    certify_log(means, checking, log, out)
}

/// Writes the certificate of the formula on the log that the source has. Nothing is a watch.
pub fn answer_certificate<R: Threads + Sync, G: Gate, S: Source, O: Sink>(
    means: &Means<'_, R, G>,
    stated: Stated,
    log: &mut S,
    out: &mut O,
) -> Result<Verdict, Stop>
    requires { (text : ListOf ℕ) × IsStated text stated }
    ensures ran { (words : ListOf (ListOf ℕ)) (text : ListOf ℕ) → IsStated text stated → AsksFor
        words (Read certifying) stated.formula.tree → (on : Handing) → Ran
        (of_source S.Source log.old log.new) (of_sink O.Sink out.old out.new) on words
        (outcome_of result) }
    ensures calm { IsCalmUnlessRead (S.faults log.old) (S.faults log.new) result }
{
    let Ok(check) = unwatched_check(means.alloc, stated) else {
        return Err(Stop::without_memory());
    };
    certify_text::<R, G, Brand, S, O>(Blank::new(1), means, check, log, out)
}
