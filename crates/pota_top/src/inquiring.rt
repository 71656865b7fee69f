//! The answers to an inquiry.
ghost use Rattle.pota_base.specs.Blanks.{IsBlankOf};
ghost use Rattle.std.specs.Prelude.{◌<◌, ℕ, Bool, List as ListOf};
ghost use Rattle.log_rules.specs.Judgement.{waiting};
ghost use Rattle.command_words.specs.declared.request.Task.TheVariants.{Read};
ghost use Rattle.command_words.specs.declared.request.Product.TheVariants.{Reports};
ghost use Rattle.call_request.specs.Questions.{AsksFor};
ghost use Rattle.stated_formula.specs.Stating.{IsStated};
ghost use Rattle.certificate_answers.specs.PassedOn.{Aim, AreWatches, said_by};
ghost use Rattle.certificate_answers.specs.PassedOn.{IsCheckOf};
ghost use Rattle.log_answers.specs.Calm.{IsCalmUnlessRead};
ghost use Rattle.log_answers.specs.Inputs.{HasCheckedBy};
ghost use Rattle.form_readings.specs.Clocks.{clocks_reading};
ghost use Rattle.form_readings.specs.Sources.{merged_reading};
ghost use Rattle.call_promise.specs.Asking.{handing_of};
ghost use Rattle.call_promise.specs.Run.{Ran};
ghost use Rattle.pota_base.specs.Changes.{of_sink, of_source};
ghost use Rattle.certificate_answers.specs.PassedOn.{outcome_of};
ghost use Rattle.certificate_answers.specs.PassedOn.{HasChecked};

use certificate_answers::{ReportedLog, answer_certificate, check_all};
use command_words::{Form, Inquiry, Product, Reporting};
use log_answers::{Checking, Means, Stop, Verdict};
use pota_base::{Gate, Sink, Source, Steps};
use stated_formula::Stated;
use std::marker::Brand;
use std::sync::ledger::{Blank, Ledger};
use std::thread::Threads;
use watch::{Handed, Watch};
use whole_answers::{check_clocks, check_sources};

// Checks the log whose text the source has.
fn check_text<R: Threads + Sync, G: Gate, L: Ledger, S: Source, O: Sink>(
    blank: Blank,
    means: &Means<'_, R, G>,
    check: ReportedLog,
    each_batch: bool,
    log: &mut S,
    out: &mut O,
) -> Result<Verdict, Stop>
    requires blank { IsBlankOf L.name L.parts blank }
    requires check { (aim : Aim) × IsCheckOf (said_by answers) aim check waiting }
    ensures checks { (aim : Aim) → IsCheckOf (said_by answers) aim check waiting → HasChecked
        (of_source S.Source log.old log.new) (of_sink O.Sink out.old out.new) aim each_batch
        result }
    ensures calm { IsCalmUnlessRead (S.faults log.old) (S.faults log.new) result }
{
    let mut checking = Checking {
        check,
        each_batch,
        steps: Steps::<L>::new(blank),
    };
    let verdict = check_all(means, &mut checking, log, out);
    drop(checking);
    verdict
}

// Checks the log that the records of the source are.
fn check_records<R: Threads + Sync, G: Gate, L: Ledger, S: Source, O: Sink>(
    blank: Blank,
    means: &Means<'_, R, G>,
    check: ReportedLog,
    source: &mut S,
    out: &mut O,
) -> Result<Verdict, Stop>
    requires blank { IsBlankOf L.name L.parts blank }
    requires check { (aim : Aim) × IsCheckOf (said_by answers) aim check waiting }
    ensures checks { (aim : Aim) → IsCheckOf (said_by answers) aim check waiting → (each : Bool)
        → HasCheckedBy clocks_reading (of_source S.Source source.old source.new)
        (of_sink O.Sink out.old out.new) aim each result }
    ensures calm { IsCalmUnlessRead (S.faults source.old) (S.faults source.new) result }
{
    let mut checking = Checking {
        check,
        each_batch: false,
        steps: Steps::<L>::new(blank),
    };
    let verdict = check_clocks(means, &mut checking, source, out);
    drop(checking);
    verdict
}

// Checks the several logs that the source has as one.
fn check_logs<R: Threads + Sync, G: Gate, L: Ledger, S: Source, O: Sink>(
    blank: Blank,
    means: &Means<'_, R, G>,
    check: ReportedLog,
    source: &mut S,
    out: &mut O,
) -> Result<Verdict, Stop>
    requires blank { IsBlankOf L.name L.parts blank }
    requires check { (aim : Aim) × IsCheckOf (said_by answers) aim check waiting }
    ensures checks { (aim : Aim) → IsCheckOf (said_by answers) aim check waiting → (each : Bool)
        → HasCheckedBy merged_reading (of_source S.Source source.old source.new)
        (of_sink O.Sink out.old out.new) aim each result }
    ensures calm { IsCalmUnlessRead (S.faults source.old) (S.faults source.new) result }
{
    let mut checking = Checking {
        check,
        each_batch: false,
        steps: Steps::<L>::new(blank),
    };
    let verdict = check_sources(means, &mut checking, source, out);
    drop(checking);
    verdict
}

// Reports on the input that the source has.
fn answer_reports<R: Threads + Sync, G: Gate, S: Source, O: Sink>(
    means: &Means<'_, R, G>,
    stated: Stated,
    form: Form,
    reporting: Reporting,
    watches: Vec<Handed>,
    log: &mut S,
    out: &mut O,
) -> Result<Verdict, Stop>
    requires watches { AreWatches watches.items }
    requires stated { (text : ListOf ℕ) × IsStated text stated }
    ensures ran { (words : ListOf (ListOf ℕ)) (text : ListOf ℕ) → IsStated text stated → AsksFor
        words (Read (record { form = form; product = Reports reporting })) stated.formula.tree → Ran
        (of_source S.Source log.old log.new) (of_sink O.Sink out.old out.new)
        (handing_of (said_by answers) watches.items) words (outcome_of result) }
    ensures calm { IsCalmUnlessRead (S.faults log.old) (S.faults log.new) result }
{
    let Ok(check) = ReportedLog::new(means.alloc, stated, reporting.shown, watches) else {
        return Err(Stop::without_memory());
    };
    let blank = Blank::new(1);
    let each = reporting.each_batch;
    match form {
        Form::Text => check_text::<R, G, Brand, S, O>(blank, means, check, each, log, out),
        Form::Clocks => check_records::<R, G, Brand, S, O>(blank, means, check, log, out),
        Form::Merged => check_logs::<R, G, Brand, S, O>(blank, means, check, log, out),
    }
}

/// Answers what is asked of the input that the source has. The watches that are handed in are asked
/// for reports alone.
pub fn answer_inquiry<R: Threads + Sync, G: Gate, S: Source, O: Sink>(
    means: &Means<'_, R, G>,
    stated: Stated,
    inquiry: Inquiry,
    watches: Vec<Handed>,
    log: &mut S,
    out: &mut O,
) -> Result<Verdict, Stop>
    requires watches { AreWatches watches.items }
    requires stated { (text : ListOf ℕ) × IsStated text stated }
    ensures ran { (words : ListOf (ListOf ℕ)) (text : ListOf ℕ) → IsStated text stated → AsksFor
        words (Read inquiry) stated.formula.tree → Ran (of_source S.Source log.old log.new)
        (of_sink O.Sink out.old out.new) (handing_of (said_by answers) watches.items) words
        (outcome_of result) }
    ensures calm { IsCalmUnlessRead (S.faults log.old) (S.faults log.new) result }
{
    let form = inquiry.form;
    match inquiry.product {
        Product::Reports(reporting) => {
            answer_reports(means, stated, form, reporting, watches, log, out)
        }
        Product::Certificate => answer_certificate(means, stated, log, out),
    }
}
