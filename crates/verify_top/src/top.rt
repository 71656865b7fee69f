//! The one call that the program runs.
ghost use Rattle.std.specs.Prelude.{◌≡◌, ◌≢◌, map, string_bytes};
ghost use Rattle.pota_base.specs.Outside.{Rose};
ghost use Rattle.pota_base.specs.Status.{code_of};
ghost use Rattle.pota_base.specs.declared.status.Status.TheVariants.{ReadFault, WriteFault};
ghost use Rattle.pota_base.specs.Changes.{of_sink, of_source};
ghost use Rattle.fault_line.specs.Lines.{Told};
ghost use Rattle.verify_top.specs.Exactness.{IsCalm, IsDecidedSo, IsRefusedAsAsked};
ghost use Rattle.verify_top.specs.Exactness.{IsRefusedAsDue};
ghost use Rattle.verify_answers.specs.Telling.{fault_line_of};
ghost use Rattle.verify_top.specs.Verifying.{Answers, HasToldTruth, HasVerified};

use crate::input::judge_input;
use fault_line::Fault;
use pota_base::{Sink, Source};
use std::alloc::Global;
use verify_answers::{Answer, Verified, read_words, tell_answer, tell_fault};

// Answers the words on the input that the source has.
fn answer_words<S: Source>(alloc: Global, words: &[String], input: &mut S) -> Answer
    ensures answers { Answers (of_source S.Source input.old input.new) (map string_bytes words.now)
        result }
    ensures calm { result ≢ Answer.Faulty Fault.Read → S.faults input.new ≡ S.faults input.old }
{
    match read_words(alloc, words) {
        Ok(stated) => judge_input(alloc, stated, input),
        Err(fault) => Answer::Faulty(fault),
    }
}

/// Verifies a certificate of a formula's truth at the initial cut of a log.
///
/// The words are the command line without the program's name: the formula. The input is the text of
/// the log and, at once behind its `end` line, the certificate. One line goes to `out`: that the
/// certificate is accepted, with its verdict, or which line of it is refused. Where there is a
/// fault one line goes to `diag`, and none to `out`.
pub fn verify<S: Source, O: Sink, D: Sink>(
    alloc: Global,
    words: &[String],
    input: &mut S,
    out: &mut O,
    diag: &mut D,
) -> Verified
    ensures verified { HasVerified (of_source S.Source input.old input.new)
        (of_sink O.Sink out.old out.new) (map string_bytes words.now) result }
    ensures truth { result.status ≡ 0 → HasToldTruth (S.left input.old) (S.left input.new)
        (O.held out.old) (O.held out.new) (map string_bytes words.now) }
    ensures told { Told (of_sink D.Sink diag.old diag.new) (fault_line_of result.fault) }
    ensures read { result.status ≡ code_of ReadFault
        → Rose (S.faults input.old) (S.faults input.new) }
    ensures calm { result.status ≢ code_of ReadFault
        → S.faults input.new ≡ S.faults input.old }
    ensures write { result.status ≡ code_of WriteFault
        → Rose (O.faults out.old) (O.faults out.new) }
    // Where no count rose and there was memory.
    ensures decided { IsCalm (S.faults input.old) (S.faults input.new) (O.faults out.old)
        (O.faults out.new) result → IsDecidedSo (S.left input.old) (map string_bytes words.now)
        (O.held out.old) (O.held out.new) result }
    ensures refused { IsCalm (S.faults input.old) (S.faults input.new) (O.faults out.old)
        (O.faults out.new) result → IsRefusedAsDue (S.left input.old) (map string_bytes words.now)
        (O.held out.old) (O.held out.new) result }
    ensures misasked { IsCalm (S.faults input.old) (S.faults input.new) (O.faults out.old)
        (O.faults out.new) result → IsRefusedAsAsked (map string_bytes words.now) (O.held out.old)
        (O.held out.new) result }
{
    let answer = answer_words(alloc, words, input);
    let verified = tell_answer(out, &answer);
    tell_fault(diag, &verified.fault);
    verified
}
