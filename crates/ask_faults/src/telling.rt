//! What is told of a fault.
ghost use Rattle.ask_faults.specs.Faults.{is_long, lines_of, long_lines, question_texts};
ghost use Rattle.ask_faults.specs.Faults.{short_line, text_at};
ghost use Rattle.ask_faults.specs.Lines as lines;
ghost use Rattle.ask_faults.specs.Telling.{IsToldAs};
ghost use Rattle.fault_line.specs.Lines.{Told};
ghost use Rattle.std.specs.Prelude.{◌≡◌, ◌++◌, true, map, string_bytes, IfOk, OnOk};
ghost use Rattle.pota_base.specs.Changes.{of_sink};

use crate::fault::Fault;
use crate::help::{TOO_MANY, stop_help};
use crate::lines::{put_entry_fault, put_refusal, put_whole};
use ask_questions::{NumberedFault, QuestionsFault};
use ask_words::asked_by;
use asked_observation::UnknownName;
use over_answers::NumberedStop;
use over_questions::EntryFault;
use pota_base::{Bytes, NoMemory, Sink, write_all};
use question_forms::QuestionFault;
use std::alloc::Global;

const USAGE: &[u8] = b"pota_ask: usage: pota_ask [--merged | --vclog] [--steps N] QUESTION..\n\
    pota_ask: expected: options first, each once, then 1 to 64 questions\n\
    pota_ask: for example: pota_ask 'never a.cs = 1 & b.cs = 1' < run.log\n";

// The text of the question of this number, from 1; it is empty where there is none.
fn text_at(words: &[String], question: usize) -> &[u8]
    ensures { result.now ≡ text_at (question_texts (map string_bytes words.now)) question }
{
    let Some(asked) = asked_by(words) else {
        return b"";
    };
    match words[asked.questions_from..].get(question.saturating_sub(1)) {
        Some(word) => word.as_bytes(),
        None => b"",
    }
}

// Puts the lines of a fault of a question.
fn put_numbered(out: &mut Bytes, text: &[u8], numbered: NumberedFault) -> Result<(), NoMemory>
    ensures { OnOk result (out.new ≡ out.old ++ lines.numbered_lines text.now numbered) }
{
    let question = u64::from(numbered.question);
    match numbered.fault {
        QuestionsFault::Question(fault) => put_entry_fault(out, question, text, fault),
        QuestionsFault::TooMany => put_whole(out, question, &TOO_MANY),
    }
}

// Puts the lines of a name that the log does not have.
fn put_unknown(out: &mut Bytes, text: &[u8], unknown: UnknownName) -> Result<(), NoMemory>
    ensures { OnOk result (out.new ≡ out.old ++ lines.unknown_lines text.now unknown) }
{
    let fault = QuestionFault::Formula(unknown.formula, unknown.fault);
    put_entry_fault(out, unknown.question as u64, text, EntryFault::One(fault))
}

// Puts the lines of a question over processes that has no answer.
fn put_stop(out: &mut Bytes, numbered: NumberedStop) -> Result<(), NoMemory>
    ensures { OnOk result (out.new ≡ out.old ++ lines.stop_lines numbered) }
{
    put_whole(out, u64::from(numbered.question), &stop_help(numbered.stop))
}

// The lines of a fault that are always the same.
fn short_line(fault: &Fault) -> &'static [u8]
    ensures { result.now ≡ short_line fault.now }
{
    match fault {
        Fault::Usage => USAGE,
        Fault::Question(_) | Fault::Unknown(_) | Fault::Over(_) | Fault::Refused(_, _) => b"",
        Fault::Read => b"pota_ask: read fault\n",
        Fault::Write => b"pota_ask: write fault\n",
        Fault::Memory => b"pota_ask: out of memory\n",
    }
}

// The lines of a fault that say where it is, and none of another.
fn long_lines(alloc: Global, words: &[String], fault: &Fault) -> Result<Bytes, NoMemory>
    ensures { IfOk result (λ text. text ≡ long_lines (map string_bytes words.now) fault.now) }
{
    let mut out = Bytes::new(alloc);
    match fault {
        Fault::Question(numbered) => {
            let text = text_at(words, numbered.question as usize);
            put_numbered(&mut out, text, *numbered)?;
        }
        Fault::Unknown(unknown) => {
            put_unknown(&mut out, text_at(words, unknown.question), *unknown)?;
        }
        Fault::Over(numbered) => put_stop(&mut out, *numbered)?,
        Fault::Refused(refusal, line) => put_refusal(&mut out, *refusal, line.as_slice())?,
        Fault::Usage | Fault::Read | Fault::Write | Fault::Memory => {}
    }
    Ok(out)
}

// Writes the text, as far as that succeeds.
fn put<D: Sink>(diag: &mut D, text: &[u8])
    ensures { Told (of_sink D.Sink diag.old diag.new) text.now }
{
    let _ = write_all(diag, text);
}

// Tells of a fault whose lines say where it is. Without memory for them it is the memory that is
// told of.
fn tell_long<D: Sink>(alloc: Global, diag: &mut D, words: &[String], fault: Fault) -> Fault
    requires { is_long fault ≡ true }
    ensures told { Told (of_sink D.Sink diag.old diag.new)
        (lines_of (map string_bytes words.now) result) }
    ensures same { IsToldAs fault result }
{
    match long_lines(alloc, words, &fault) {
        Ok(lines) => {
            put(diag, lines.as_slice());
            fault
        }
        Err(NoMemory) => {
            drop(fault);
            put(diag, short_line(&Fault::Memory));
            Fault::Memory
        }
    }
}

// Whether the lines of a fault say where it is.
fn is_long(fault: &Fault) -> bool
    ensures { result ≡ is_long fault.now }
{
    match fault {
        Fault::Question(_) | Fault::Unknown(_) | Fault::Over(_) | Fault::Refused(_, _) => true,
        Fault::Usage | Fault::Read | Fault::Write | Fault::Memory => false,
    }
}

/// Tells `diag` of a fault, and says which one it told of: another only where the lines of this one
/// take memory that isn't there. Whether that succeeds changes nothing else.
pub fn tell<D: Sink>(alloc: Global, diag: &mut D, words: &[String], fault: Fault) -> Fault
    ensures told { Told (of_sink D.Sink diag.old diag.new)
        (lines_of (map string_bytes words.now) result) }
    ensures same { IsToldAs fault result }
{
    if is_long(&fault) {
        return tell_long(alloc, diag, words, fault);
    }
    put(diag, short_line(&fault));
    fault
}
