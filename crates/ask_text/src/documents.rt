//! With what a document begins, and the rows of a question.
ghost use Rattle.ask_text.specs.Text.{IsOnRun, below, head_lines, line_of, question_rows};
ghost use Rattle.ask_text.specs.Text.{result_word, view_of};
ghost use Rattle.rctl_lexer.specs.Lexing.{lex};
ghost use Rattle.std.specs.Prelude.{◌≡◌, ◌++◌, ◌≤◌, length, drop, IfOk, OnOk};
ghost use Rattle.pota_base.specs.Limits.{longest_lexed};

use crate::block::{BLOCK_FRONT, put_evidence};
use crate::indented::put_indented;
use crate::nowhere::put_nowhere;
use crate::question::{AskedQuestion, AskedRun};
use pota_base::{Bytes, NoMemory, put_u64};
use rctl_lexer::{Lexed, lex};
use std::alloc::Global;
use view_parts::Extent;
use view_text::Told;

/// Appends the version of the protocol, and the plan of so many questions.
pub fn put_head(out: &mut Bytes, questions: u64) -> Result<(), NoMemory>
    ensures { OnOk result (out.new ≡ out.old ++ head_lines questions) }
{
    out.extend_from_slice(b"TAP version 14\n1..")?;
    put_u64(out, questions)?;
    out.push(b'\n')
}

fn result_word(holds: bool) -> &'static [u8]
    ensures { result.now ≡ result_word holds }
{
    if holds { b"ok " } else { b"not ok " }
}

/// Appends the line of a question with its number.
pub fn put_line(out: &mut Bytes, number: u64, holds: bool, text: &[u8]) -> Result<(), NoMemory>
    ensures { OnOk result (out.new ≡ out.old ++ line_of number holds text.now) }
{
    out.extend_from_slice(result_word(holds))?;
    put_u64(out, number)?;
    out.extend_from_slice(b" - ")?;
    out.extend_from_slice(text)?;
    out.push(b'\n')
}

/// The tokens of a question's formula, which begins at this byte.
pub fn lexed(alloc: Global, text: &[u8], formula: u32) -> Result<Lexed, NoMemory>
    requires { length text.now ≤ longest_lexed }
    ensures { IfOk result (λ lexed. lexed ≡ lex (drop formula text.now)) }
{
    let from = text.len().min(formula as usize);
    lex(alloc, &text[from..])
}

// What stands below the line of a question.
fn below(run: &AskedRun<'_>, question: &AskedQuestion<'_>) -> Result<Bytes, NoMemory>
    requires { IsOnRun run.now.states.now (view_of question.now) }
    ensures { IfOk result (λ rows. rows
        ≡ below run.now.states.now run.now.steps (view_of question.now)) }
{
    let lexed = lexed(run.alloc, question.text, question.formula)?;
    let told = Told {
        alloc: run.alloc,
        states: run.states,
        tokens: lexed.tokens.as_slice(),
        extent: Extent::Last(run.steps),
    };
    let outcome = question.outcome;
    let mut rows = Bytes::new(run.alloc);
    put_evidence(
        &mut rows,
        BLOCK_FRONT,
        b"",
        &told,
        question.form,
        outcome.witnesses.as_slice(),
    )?;
    put_nowhere(&mut rows, question.disjuncts, outcome.nowhere.as_slice())?;
    Ok(rows)
}

/// Appends the line of a question with its number, and what stands below it.
pub fn put_question(
    out: &mut Bytes,
    run: &AskedRun<'_>,
    number: u64,
    question: &AskedQuestion<'_>,
) -> Result<(), NoMemory>
    requires { IsOnRun run.now.states.now (view_of question.now) }
    ensures { OnOk result (out.new ≡ out.old
        ++ question_rows run.now.states.now run.now.steps number (view_of question.now)) }
{
    put_line(out, number, question.outcome.holds, question.text)?;
    let below = below(run, question)?;
    put_indented(out, below.as_slice())
}
