//! The one call that the program runs.
ghost use Rattle.std.specs.Prelude.{◌≡◌, ◌≢◌, ℕ, List, map, string_bytes};
ghost use Rattle.pota_base.specs.Outside.{Rose};
ghost use Rattle.pota_base.specs.declared.status.Status.TheVariants.{ReadFault, WriteFault};
ghost use Rattle.pota_base.specs.Changes.{of_sink, of_source};
ghost use Rattle.call_request.specs.Questions.{IsQuestion};
ghost use Rattle.certificate_answers.specs.PassedOn.{AreWatches, said_by};
ghost use Rattle.log_answers.specs.Calm.{IsCalmUnlessRead};
ghost use Rattle.fault_line.specs.Lines.{Told};
ghost use Rattle.call_promise.specs.Asking.{handing_of};
ghost use Rattle.call_promise.specs.Run.{Ran, IsDecidedOn, IsRefusedOn, IsMisaskedOn};
ghost use Rattle.call_promise.specs.Run.{IsBenchedOn};
ghost use Rattle.call_promise.specs.Questions.{fault_of_question};
ghost use Rattle.certificate_answers.specs.PassedOn.{outcome_of};
ghost use Rattle.pota_top.specs.Telling.{line_of};

use crate::inquiring::answer_inquiry;
use bench_answers::answer_bench;
use call_promise::Outcome;
use call_request::{Question, QuestionFault, read_question};
use certificate_answers::{faulty, outcome_of};
use command_words::Task;
use fault_line::{Fault, tell};
use log_answers::{Means, Stop, Verdict};
use pota_base::{Gate, Refused, Sink, Source};
use std::alloc::Global;
use std::thread::Threads;
use watch::{Handed, Watch};

// Answers a question, of the input that the source has or of a log that is made.
fn answer_question<R: Threads + Sync, G: Gate, S: Source, O: Sink>(
    rt: &R,
    alloc: Global,
    gate: &G,
    question: Question,
    watches: Vec<Handed>,
    log: &mut S,
    out: &mut O,
) -> Result<Verdict, Stop>
    requires watches { AreWatches watches.items }
    requires asks { (words : List (List ℕ)) × IsQuestion words question }
    ensures ran { (words : List (List ℕ)) → IsQuestion words question → Ran
        (of_source S.Source log.old log.new) (of_sink O.Sink out.old out.new)
        (handing_of (said_by answers) watches.items) words (outcome_of result) }
    ensures calm { IsCalmUnlessRead (S.faults log.old) (S.faults log.new) result }
{
    let Question {
        task,
        workers,
        stated,
    } = question;
    let means = Means {
        rt,
        alloc,
        workers,
        gate,
    };
    match task {
        Task::Read(inquiry) => answer_inquiry(&means, stated, inquiry, watches, log, out),
        Task::Bench(sizes) => answer_bench(&means, stated, sizes, watches, out),
    }
}

// What is wrong with the words or their formula.
fn fault_of_question(fault: QuestionFault) -> Fault
    ensures { result ≡ fault_of_question fault }
{
    match fault {
        QuestionFault::Usage => Fault::Usage,
        QuestionFault::Formula(fault) => Fault::Formula(fault),
    }
}

// Answers the words on the input that the source has, and says how that ended.
fn answer_words<R: Threads + Sync, G: Gate, S: Source, O: Sink>(
    rt: &R,
    alloc: Global,
    gate: &G,
    words: &[String],
    watches: Vec<Handed>,
    log: &mut S,
    out: &mut O,
) -> Outcome
    requires watches { AreWatches watches.items }
    ensures ran { Ran (of_source S.Source log.old log.new) (of_sink O.Sink out.old out.new)
        (handing_of (said_by answers) watches.items) (map string_bytes words.now) result }
    ensures calm { result.status ≢ ReadFault → S.faults log.new ≡ S.faults log.old }
{
    match read_question(alloc, words) {
        Ok(question) => {
            outcome_of(answer_question(rt, alloc, gate, question, watches, log, out))
        }
        Err(Refused::Fault(fault)) => faulty(0, fault_of_question(fault)),
        Err(Refused::NoMemory) => outcome_of(Err(Stop::without_memory())),
    }
}

/// Answers what the words ask: a formula over all global states of the run that the log has, or of
/// one that is made.
///
/// The words are the command line without the program's name. A formula may name the watches that
/// are handed in, but for a certificate, whose formula may name none. The reports or the
/// certificate go to `out`, and one line that tells why there is no verdict to `diag`.
pub fn pota<R: Threads + Sync, S: Source, O: Sink, D: Sink, G: Gate>(
    rt: &R,
    alloc: Global,
    words: &[String],
    log: &mut S,
    out: &mut O,
    diag: &mut D,
    watches: Vec<Handed>,
    gate: &G,
) -> Outcome
    requires watches { AreWatches watches.items }
    ensures ran { Ran (of_source S.Source log.old log.new) (of_sink O.Sink out.old out.new)
        (handing_of (said_by answers) watches.items) (map string_bytes words.now) result }
    ensures told { Told (of_sink D.Sink diag.old diag.new) (line_of result.fault) }
    ensures read { result.status ≡ ReadFault → Rose (S.faults log.old) (S.faults log.new) }
    ensures calm { result.status ≢ ReadFault → S.faults log.new ≡ S.faults log.old }
    ensures write { result.status ≡ WriteFault → Rose (O.faults out.old) (O.faults out.new) }
    // Where no count rose and there was memory.
    ensures decided { IsDecidedOn (of_source S.Source log.old log.new)
        (of_sink O.Sink out.old out.new) (handing_of (said_by answers) watches.items)
        (map string_bytes words.now) result }
    ensures refused { IsRefusedOn (of_source S.Source log.old log.new)
        (of_sink O.Sink out.old out.new) (handing_of (said_by answers) watches.items)
        (map string_bytes words.now) result }
    ensures misasked { IsMisaskedOn (of_source S.Source log.old log.new)
        (of_sink O.Sink out.old out.new) (map string_bytes words.now) result }
    ensures benched { IsBenchedOn (of_source S.Source log.old log.new)
        (of_sink O.Sink out.old out.new) (handing_of (said_by answers) watches.items)
        (map string_bytes words.now) result }
{
    let outcome = answer_words(rt, alloc, gate, words, watches, log, out);
    tell(diag, b"pota", &outcome.fault);
    outcome
}
