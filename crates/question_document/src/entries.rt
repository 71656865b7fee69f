//! The rows of a question of the log.
ghost use Rattle.ask_text.specs.Text.{IsOnRun, question_rows};
ghost use Rattle.asked_list.specs.Lists.{range_of};
ghost use Rattle.question_document.specs.Views.{IsThere, view_at};
ghost use Rattle.rctl_class.specs.NamedParts.{disjuncts_of};
ghost use Rattle.std.specs.Prelude.{◌≡◌, ◌++◌, ◌≤◌, length, OnOk};

use ask_text::{AskedQuestion, AskedRun, put_question};
use asked_list::{AskedRange, Listed};
use pota_base::{Bytes, List, NoMemory};
use question_outcome::Outcome;
use rctl_class::NamedPart;

// The disjuncts of a range.
fn in_range(disjuncts: &[List<NamedPart>], range: AskedRange) -> &[List<NamedPart>]
    requires up { range.from ≤ range.to }
    requires within { range.to ≤ length disjuncts.now }
    ensures { result.now ≡ range_of range.from range.to disjuncts.now }
{
    &disjuncts[range.from as usize..range.to as usize]
}

/// Puts the rows of a question with its own disjuncts, by what it comes to.
pub fn put_entry(
    out: &mut Bytes,
    run: &AskedRun<'_>,
    number: u64,
    text: &[u8],
    entry: Listed,
    disjuncts: &[List<NamedPart>],
    outcome: &Outcome,
) -> Result<(), NoMemory>
    requires there { IsThere (length disjuncts.now) entry }
    requires on_run { IsOnRun run.now.states.now
        (view_at (disjuncts_of disjuncts.now) text.now entry outcome.now) }
    ensures { OnOk result (out.new ≡ out.old ++ question_rows run.now.states.now run.now.steps
        number (view_at (disjuncts_of disjuncts.now) text.now entry outcome.now)) }
{
    let question = AskedQuestion {
        text,
        formula: entry.formula,
        form: entry.range.form,
        disjuncts: in_range(disjuncts, entry.range),
        outcome,
    };
    put_question(out, run, number, &question)
}
