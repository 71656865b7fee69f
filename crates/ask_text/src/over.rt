//! What is written of a question that was asked of processes.
ghost use Rattle.ask_text.specs.OverText.{asked_line, fails_text, kinds_text, naming_text};
ghost use Rattle.ask_text.specs.OverText.{over_below, over_block, over_front, over_nowhere};
ghost use Rattle.ask_text.specs.OverText.{over_of, over_rows, second_of, second_text};
ghost use Rattle.ask_text.specs.Text.{IsOnRun, view_of};
ghost use Rattle.question_instances.specs.Instances.{renaming_of};
ghost use Rattle.std.specs.Prelude.{◌≡◌, ◌++◌, IfOk, OnOk};

use crate::block::{BLOCK_END, BLOCK_FRONT, put_evidence};
use crate::documents::{lexed, put_line};
use crate::indented::put_indented;
use crate::nowhere::put_nowhere;
use crate::question::{AskedQuestion, AskedRun};
use pota_base::{Bytes, NoMemory, put_u64};
use question_instances::Naming;
use std::alloc::Global;
use view_parts::Extent;
use view_text::Told;

/// A question that was asked of processes.
#[derive(Clone, Copy)]
pub struct OverQuestion<'a> {
    /// The question as it was asked.
    pub text: &'a [u8],
    /// How many instances it was asked of.
    pub asked: u32,
    /// How many of them fail.
    pub fails: u32,
    /// In how many of them some part holds nowhere.
    pub nowhere: u32,
    /// The processes that its names stand for in the instance that is shown.
    pub first: Naming<'a>,
    pub second: Option<Naming<'a>>,
    /// That instance: the first one that fails, or the first one where none does.
    pub shown: AskedQuestion<'a>,
}

// Appends a name, and the process that it stands for.
fn put_naming(out: &mut Bytes, naming: &Naming<'_>) -> Result<(), NoMemory>
    ensures { OnOk result (out.new ≡ out.old ++ naming_text (renaming_of naming.now)) }
{
    out.extend_from_slice(naming.word)?;
    out.extend_from_slice(b" = ")?;
    out.extend_from_slice(naming.process)
}

// Appends the second one, where there is one.
fn put_second(out: &mut Bytes, question: &OverQuestion<'_>) -> Result<(), NoMemory>
    ensures { OnOk result (out.new ≡ out.old ++ second_text (second_of question.now.second)) }
{
    match &question.second {
        Some(naming) => {
            out.extend_from_slice(b", ")?;
            put_naming(out, naming)
        }
        None => Ok(()),
    }
}

// Appends how many instances fail of how many.
fn put_fails(out: &mut Bytes, question: &OverQuestion<'_>) -> Result<(), NoMemory>
    ensures { OnOk result (out.new ≡ out.old ++ fails_text (over_of question.now)) }
{
    put_u64(out, u64::from(question.fails))?;
    out.extend_from_slice(b" of ")?;
    put_u64(out, u64::from(question.asked))
}

// With what the block begins.
fn front(alloc: Global, question: &OverQuestion<'_>) -> Result<Bytes, NoMemory>
    ensures { IfOk result (λ front. front ≡ over_front (over_of question.now)) }
{
    let mut front = Bytes::new(alloc);
    front.extend_from_slice(BLOCK_FRONT)?;
    front.extend_from_slice(b"for: ")?;
    put_naming(&mut front, &question.first)?;
    put_second(&mut front, question)?;
    front.extend_from_slice(b"\nfails: ")?;
    put_fails(&mut front, question)?;
    front.push(b'\n')?;
    Ok(front)
}

// What it was asked of, where it is one, and where there are more.
fn kinds(question: &OverQuestion<'_>) -> &'static [u8]
    ensures { result.now ≡ kinds_text (second_of question.now.second) question.now.asked }
{
    let asked = question.asked;
    match &question.second {
        None => {
            if asked == 1 {
                b" process"
            } else {
                b" processes"
            }
        }
        Some(_) => {
            if asked == 1 {
                b" pair of processes"
            } else {
                b" pairs of processes"
            }
        }
    }
}

// Appends how many instances it was asked of.
fn put_asked(out: &mut Bytes, question: &OverQuestion<'_>) -> Result<(), NoMemory>
    ensures { OnOk result (out.new ≡ out.old ++ asked_line (over_of question.now)) }
{
    out.extend_from_slice(b"# asked of ")?;
    put_u64(out, u64::from(question.asked))?;
    out.extend_from_slice(kinds(question))?;
    out.push(b'\n')
}

// Appends the block of the instance that is shown.
fn put_over_block(
    out: &mut Bytes,
    run: &AskedRun<'_>,
    question: &OverQuestion<'_>,
) -> Result<(), NoMemory>
    requires { IsOnRun run.now.states.now (view_of question.now.shown) }
    ensures { OnOk result (out.new
        ≡ out.old ++ over_block run.now.states.now run.now.steps (over_of question.now)) }
{
    let shown = &question.shown;
    let lexed = lexed(run.alloc, shown.text, shown.formula)?;
    let told = Told {
        alloc: run.alloc,
        states: run.states,
        tokens: lexed.tokens.as_slice(),
        extent: Extent::Last(run.steps),
    };
    let front = front(run.alloc, question)?;
    let mut alone = Bytes::new(run.alloc);
    alone.extend_from_slice(front.as_slice())?;
    alone.extend_from_slice(BLOCK_END)?;
    put_evidence(
        out,
        front.as_slice(),
        alone.as_slice(),
        &told,
        shown.form,
        shown.outcome.witnesses.as_slice(),
    )
}

// Appends the comments on parts that hold nowhere.
fn put_over_nowhere(out: &mut Bytes, question: &OverQuestion<'_>) -> Result<(), NoMemory>
    ensures { OnOk result (out.new ≡ out.old ++ over_nowhere (over_of question.now)) }
{
    if question.nowhere != question.asked {
        return Ok(());
    }
    let shown = &question.shown;
    put_nowhere(out, shown.disjuncts, shown.outcome.nowhere.as_slice())
}

// What stands below the line of the question.
fn below(run: &AskedRun<'_>, question: &OverQuestion<'_>) -> Result<Bytes, NoMemory>
    requires { IsOnRun run.now.states.now (view_of question.now.shown) }
    ensures { IfOk result (λ rows. rows
        ≡ over_below run.now.states.now run.now.steps (over_of question.now)) }
{
    let mut rows = Bytes::new(run.alloc);
    if question.fails == 0 {
        put_asked(&mut rows, question)?;
    } else {
        put_over_block(&mut rows, run, question)?;
    }
    put_over_nowhere(&mut rows, question)?;
    Ok(rows)
}

/// Appends the line of a question over processes with its number, and what stands below it.
pub fn put_over(
    out: &mut Bytes,
    run: &AskedRun<'_>,
    number: u64,
    question: &OverQuestion<'_>,
) -> Result<(), NoMemory>
    requires { IsOnRun run.now.states.now (view_of question.now.shown) }
    ensures { OnOk result (out.new ≡ out.old
        ++ over_rows run.now.states.now run.now.steps number (over_of question.now)) }
{
    put_line(out, number, question.fails == 0, question.text)?;
    let below = below(run, question)?;
    put_indented(out, below.as_slice())
}
