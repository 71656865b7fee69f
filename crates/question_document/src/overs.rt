//! The rows of a question over processes.
ghost use Rattle.ask_text.specs.OverText.{over_rows, second_of};
ghost use Rattle.event_log.specs.LogText.{name_at};
ghost use Rattle.question_document.specs.Views.{CanShow, naming_at, over_view, second_naming};
ghost use Rattle.question_instances.specs.Instances.{renaming_of};
ghost use Rattle.question_instances.specs.Over.{IsSpanIn};
ghost use Rattle.std.specs.Prelude.{◌≡◌, ◌++◌, length, IfSome, OnOk};

use ask_text::{AskedQuestion, AskedRun, OverQuestion, put_over};
use event_log::Header;
use over_answers::Tallied;
use pota_base::{Bytes, NoMemory};
use question_instances::Naming;
use question_text::Span;

// The name of this process, which is empty where there is none.
fn process_name(header: &Header, process: u32) -> &[u8]
    ensures { result.now ≡ name_at header.now.procs process }
{
    match header.procs.as_slice().get(process as usize) {
        Some(name) => name.as_bytes(),
        None => b"",
    }
}

// The name that stands there, and the process that it stands for.
fn naming<'a>(text: &'a [u8], span: Span, header: &'a Header, process: u32) -> Naming<'a>
    requires { IsSpanIn (length text.now) span }
    ensures { renaming_of result ≡ naming_at text.now header.now span process }
{
    Naming {
        word: &text[span.from as usize..span.to as usize],
        process: process_name(header, process),
    }
}

// The second name, if there are two.
fn second<'a>(
    text: &'a [u8],
    span: Option<Span>,
    header: &'a Header,
    process: Option<u32>,
) -> Option<Naming<'a>>
    requires { IfSome span (IsSpanIn (length text.now)) }
    ensures { second_of result ≡ second_naming text.now header.now span process }
{
    let (Some(span), Some(process)) = (span, process) else {
        return None;
    };
    Some(naming(text, span, header, process))
}

/// Puts the rows of a question over processes, by its tally.
pub fn put_tallied(
    out: &mut Bytes,
    run: &AskedRun<'_>,
    number: u64,
    text: &[u8],
    tallied: &Tallied,
) -> Result<(), NoMemory>
    requires { CanShow run.now.states.now text.now tallied.now }
    ensures { OnOk result (IfSome tallied.now.tally.shown (λ a. out.new ≡ out.old
        ++ over_rows run.now.states.now run.now.steps number
        (over_view text.now run.now.states.now.header tallied.now a))) }
{
    let Some(shown) = &tallied.tally.shown else {
        unreachable!()
    };
    let header = run.states.header();
    let over = tallied.over;
    let question = OverQuestion {
        text,
        asked: tallied.tally.asked,
        fails: tallied.tally.fails,
        nowhere: tallied.tally.nowhere,
        first: naming(text, over.first, header, shown.pair.first),
        second: second(text, over.second, header, shown.pair.second),
        shown: AskedQuestion {
            text: shown.text.as_slice(),
            formula: shown.formula,
            form: shown.form,
            disjuncts: shown.disjuncts.as_slice(),
            outcome: &shown.outcome,
        },
    };
    put_over(out, run, number, &question)
}
