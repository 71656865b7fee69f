//! The whole view.
ghost use Rattle.std.specs.Prelude.{◌≡◌, ◌++◌, IfOk, OnOk};
ghost use Rattle.report.specs.Spelling.{IsWellFormed};
ghost use Rattle.view_parts.specs.Parts.{IsReportOf};
ghost use Rattle.view_text.specs.Folding.{AreShort};
ghost use Rattle.view_text.specs.Text.{verdict_word, head_rows, plain_text, view_text};
ghost use Rattle.view_text.specs.Text.{formula_tokens};

use crate::alternatives::told_alternatives;
use crate::claims::put_claims;
use crate::folding::folded;
use crate::slices::put_slice_rows;
use crate::witnesses::{Told, put_witnesses};
use event_log::States;
use pota_base::{Bytes, NoMemory};
use rctl_grammar::Token;
use rctl_lexer::lex;
use report::Report;
use std::alloc::Global;
use view_parts::Extent;

fn verdict_word(verdict: bool) -> &'static [u8]
    ensures { result.now ≡ verdict_word verdict }
{
    if verdict {
        return b"true: ";
    }
    b"false: it is not so that "
}

// Appends the formula, and what the verdict says of it.
fn put_head_rows(
    out: &mut Bytes,
    alloc: Global,
    report: &Report,
    tokens: &[Token],
) -> Result<(), NoMemory>
    ensures { OnOk result (out.new ≡ out.old ++ head_rows report.now tokens.now) }
{
    out.extend_from_slice(report.formula.as_slice())?;
    out.push(b'\n')?;
    out.extend_from_slice(verdict_word(report.verdict))?;
    put_claims(out, alloc, tokens)?;
    out.extend_from_slice(b".\n")
}

// The text before long lines are broken.
fn plain_text(
    alloc: Global,
    states: &States,
    extent: Extent,
    report: &Report,
) -> Result<Bytes, NoMemory>
    requires formed { IsWellFormed report.now }
    requires fits { IsReportOf states.now report.now }
    ensures { IfOk result (λ text. text ≡ plain_text states.now extent report.now) }
{
    let lexed = lex(alloc, report.formula.as_slice())?;
    let tokens = lexed.tokens.as_slice();
    let told = Told {
        alloc,
        states,
        tokens,
        extent,
    };
    let mut out = Bytes::new(alloc);
    put_head_rows(&mut out, alloc, report, tokens)?;
    let alternatives = told_alternatives(alloc, report.formula.as_slice(), tokens)?;
    put_witnesses(
        &mut out,
        &told,
        alternatives.as_slice(),
        report.witnesses.as_slice(),
    )?;
    put_slice_rows(&mut out, states, &report.slice)?;
    Ok(out)
}

/// The view of a run by a report of it.
pub fn view_text(
    alloc: Global,
    states: &States,
    extent: Extent,
    report: &Report,
) -> Result<Bytes, NoMemory>
    requires formed { IsWellFormed report.now }
    requires fits { IsReportOf states.now report.now }
    ensures view { IfOk result (λ text. text ≡ view_text states.now extent report.now) }
    ensures short { IfOk result (AreShort 0) }
{
    let text = plain_text(alloc, states, extent, report)?;
    folded(alloc, text.as_slice())
}
