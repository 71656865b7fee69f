//! The one call that the program runs.
ghost use Rattle.ask_questions.specs.Entries.{CanBeObserved};
ghost use Rattle.ask_top.specs.Answers.{told_of};
ghost use Rattle.ask_top.specs.Asking.{HasAnswered};
ghost use Rattle.ask_top.specs.Calm.{IsCalm};
ghost use Rattle.ask_top.specs.inside.Telling.{IsAnswerTold};
ghost use Rattle.ask_top.specs.inside.Writing.{Puts};
ghost use Rattle.ask_words.specs.Asking.{asked_by};
ghost use Rattle.asked_log.specs.Watches.{AreWatches, handed_watches, said_by};
ghost use Rattle.fault_line.specs.Lines.{Told as IsTold};
ghost use Rattle.std.specs.Prelude.{◌≡◌, ◌<◌, ◌+◌, ◌≤◌, drop, length, map, string_bytes, Some};
ghost use Rattle.pota_base.specs.Changes.{of_sink, of_source};
ghost use Rattle.pota_base.specs.Limits.{most_questions};

use crate::answer::Answer;
use crate::observed::answer_log;
use ask_faults::{Fault, tell};
use ask_questions::{AskedQuestions, read_questions};
use ask_words::{Asked, asked_by};
use asked_log::read_logs_are_observed;
use log_input::{Input, read_input};
use pota_base::{NoMemory, Refused, Sink, Source, write_all};
use question_document::Document;
use std::alloc::Global;
use std::thread::Threads;
use watch::{Handed, Watch};

// Writes what the questions come to.
fn put_document<O: Sink>(made: Document, out: &mut O) -> Answer
    ensures { Puts made.text made.holds (of_sink O.Sink out.old out.new) result }
{
    if write_all(out, made.text.as_slice()).is_err() {
        return Answer::Without(Fault::Write);
    }
    if made.holds {
        Answer::Holds
    } else {
        Answer::Fails
    }
}

// Reads the input, and answers the questions on it.
fn answer_questions<R: Threads + Sync, S: Source, O: Sink>(
    rt: &R,
    alloc: Global,
    words: &[String],
    asked: Asked,
    questions: AskedQuestions,
    watches: Vec<Handed>,
    input: &mut S,
    out: &mut O,
) -> Answer
    requires asks { asked_by (map string_bytes words.now) ≡ Some asked }
    requires some { asked.questions_from < length words.now }
    requires few { length words.now ≤ asked.questions_from + most_questions }
    requires read { CanBeObserved (map string_bytes (drop asked.questions_from words.now))
        questions }
    requires watches { AreWatches watches.items }
    ensures answered { HasAnswered (handed_watches (said_by answers) watches.items)
        (of_source S.Source input.old input.new) (of_sink O.Sink out.old out.new)
        (map string_bytes words.now) result }
    ensures calm { IsCalm (S.faults input.old) (S.faults input.new) result }
{
    read_logs_are_observed();
    match read_input(alloc, asked.form, input) {
        Ok(Input::Whole(log, places)) => {
            let texts = &words[asked.questions_from..];
            match answer_log(
                rt,
                alloc,
                texts,
                asked.steps,
                questions,
                watches,
                log,
                places,
            ) {
                Ok(made) => put_document(made, out),
                Err(fault) => Answer::Without(fault),
            }
        }
        Ok(Input::Faulty(refusal, line)) => {
            drop(questions);
            Answer::Without(Fault::Refused(refusal, line))
        }
        Ok(Input::Failed) => {
            drop(questions);
            Answer::Without(Fault::Read)
        }
        Err(NoMemory) => {
            drop(questions);
            Answer::Without(Fault::Memory)
        }
    }
}

// Answers the words on the input.
fn answer<R: Threads + Sync, S: Source, O: Sink>(
    rt: &R,
    alloc: Global,
    words: &[String],
    watches: Vec<Handed>,
    input: &mut S,
    out: &mut O,
) -> Answer
    requires watches { AreWatches watches.items }
    ensures answered { HasAnswered (handed_watches (said_by answers) watches.items)
        (of_source S.Source input.old input.new) (of_sink O.Sink out.old out.new)
        (map string_bytes words.now) result }
    ensures calm { IsCalm (S.faults input.old) (S.faults input.new) result }
{
    let Some(asked) = asked_by(words) else {
        return Answer::Without(Fault::Usage);
    };
    match read_questions(alloc, &words[asked.questions_from..]) {
        Ok(questions) => {
            answer_questions(rt, alloc, words, asked, questions, watches, input, out)
        }
        Err(Refused::Fault(fault)) => Answer::Without(Fault::Question(fault)),
        Err(Refused::NoMemory) => Answer::Without(Fault::Memory),
    }
}

// Tells of an answer, which is another where there is no memory to tell of it.
fn tell_answer<D: Sink>(alloc: Global, diag: &mut D, words: &[String], answer: Answer) -> Answer
    ensures told { IsTold (of_sink D.Sink diag.old diag.new)
        (told_of (map string_bytes words.now) result) }
    ensures same { IsAnswerTold answer result }
{
    match answer {
        Answer::Holds => answer,
        Answer::Fails => answer,
        Answer::Without(fault) => Answer::Without(tell(alloc, diag, words, fault)),
    }
}

/// Asks the questions that the words have of the log that the input is, and writes what each comes
/// to: a document of the Test Anything Protocol.
///
/// The words are the command line without the program's name. A question may name the watches that
/// are handed in. The document goes to `out`, and to `diag` the lines that tell why there is none.
pub fn ask<R: Threads + Sync, S: Source, O: Sink, D: Sink>(
    rt: &R,
    alloc: Global,
    words: &[String],
    watches: Vec<Handed>,
    input: &mut S,
    out: &mut O,
    diag: &mut D,
) -> Answer
    requires watches { AreWatches watches.items }
    ensures answered { HasAnswered (handed_watches (said_by answers) watches.items)
        (of_source S.Source input.old input.new) (of_sink O.Sink out.old out.new)
        (map string_bytes words.now) result }
    ensures calm { IsCalm (S.faults input.old) (S.faults input.new) result }
    ensures told { IsTold (of_sink D.Sink diag.old diag.new)
        (told_of (map string_bytes words.now) result) }
{
    let answer = answer(rt, alloc, words, watches, input, out);
    tell_answer(alloc, diag, words, answer)
}
