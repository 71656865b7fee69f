//! The answer to a bench.
ghost use Rattle.pota_base.specs.Blanks.{IsBlankOf};
ghost use Rattle.std.specs.Prelude.{◌<◌, ℕ, List as ListOf, Option};
ghost use Rattle.pota_base.specs.Changes.{change_of, of_sink};
ghost use Rattle.log_rules.specs.Judgement.{waiting};
ghost use Rattle.command_words.specs.declared.request.Task.TheVariants.{Bench};
ghost use Rattle.call_request.specs.Questions.{AsksFor};
ghost use Rattle.stated_formula.specs.Stating.{IsStated};
ghost use Rattle.batch_answers.specs.PassedOn.{Aim, AreWatches, said_by};
ghost use Rattle.batch_answers.specs.PassedOn.{IsCheckOf};
ghost use Rattle.log_answers.specs.Checking.{IsBenchAim};
ghost use Rattle.call_promise.specs.Asking.{handing_of};
ghost use Rattle.call_promise.specs.Run.{Ran};
ghost use Rattle.batch_answers.specs.Outcome.{outcome_of};
ghost use Rattle.bench_answers.specs.Benching.{CanBeMade};
ghost use Rattle.bench_answers.specs.inside.Benching.{HasMade};

use batch_answers::ReportedLog;
use call_options::{Shown, Sizes};
use log_answers::{Checking, Means, Stop, Verdict};
use pota_base::{Gate, Sink, Steps};
use stated_formula::Stated;
use std::marker::Brand;
use std::sync::ledger::{Blank, Ledger};
use std::thread::Threads;
use trace_gen::generate;
use watch::{Handed, Watch};

// Takes the log that is made, and writes its summary.
fn bench_all<R: Threads + Sync, G: Gate, L: Ledger, O: Sink>(
    means: &Means<'_, R, G>,
    checking: &mut Checking<L>,
    sizes: Sizes,
    out: &mut O,
) -> Result<Verdict, Stop>
    requires sizes { CanBeMade sizes }
    requires check { (aim : Aim) × IsCheckOf (said_by answers) aim checking.old.check waiting }
    ensures { (aim : Aim) → IsCheckOf (said_by answers) aim checking.old.check waiting → IsBenchAim
        aim → HasMade (of_sink O.Sink out.old out.new) aim sizes result }
{
    let Ok(log) = generate(means.alloc, sizes.seed, sizes.procs, sizes.events) else {
        return Err(Stop::without_memory());
    };
    if let Err(stop) = checking.take_whole(means.alloc, log) {
        return Err(stop);
    }
    checking.sum_up(means, sizes, out)
}

// Checks the log that is made, and writes its summary.
fn bench_log<R: Threads + Sync, G: Gate, L: Ledger, O: Sink>(
    blank: Blank,
    means: &Means<'_, R, G>,
    check: ReportedLog,
    sizes: Sizes,
    out: &mut O,
) -> Result<Verdict, Stop>
    requires blank { IsBlankOf L.name L.parts blank }
    requires sizes { CanBeMade sizes }
    requires check { (aim : Aim) × IsCheckOf (said_by answers) aim check waiting }
    ensures { (aim : Aim) → IsCheckOf (said_by answers) aim check waiting → IsBenchAim aim → HasMade
        (of_sink O.Sink out.old out.new) aim sizes result }
{
    let mut checking = Checking {
        check,
        each_batch: false,
        steps: Steps::<L>::new(blank),
    };
    let verdict = bench_all(means, &mut checking, sizes, out);
    drop(checking);
    verdict
}

/// Answers a bench. It reads nothing.
pub fn answer_bench<R: Threads + Sync, G: Gate, O: Sink>(
    means: &Means<'_, R, G>,
    stated: Stated,
    sizes: Sizes,
    watches: Vec<Handed>,
    out: &mut O,
) -> Result<Verdict, Stop>
    requires sizes { CanBeMade sizes }
    requires watches { AreWatches watches.items }
    requires stated { (text : ListOf ℕ) × IsStated text stated }
    ensures { (words : ListOf (ListOf ℕ)) (text : ListOf ℕ) → IsStated text stated → AsksFor words
        (Bench sizes) stated.formula.tree → (left : Option (ListOf ℕ)) (lf : ℕ) → Ran
        (change_of left left lf lf) (of_sink O.Sink out.old out.new)
        (handing_of (said_by answers) watches.items) words (outcome_of result) }
{
    let shown = Shown {
        slice: true,
        witness: false,
    };
    let Ok(check) = ReportedLog::new(means.alloc, stated, shown, watches) else {
        return Err(Stop::without_memory());
    };
    bench_log::<R, G, Brand, O>(Blank::new(1), means, check, sizes, out)
}
