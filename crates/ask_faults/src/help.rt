//! What is told of a fault besides its place.
ghost use Rattle.ask_faults.specs.Helps as helps;
ghost use Rattle.ask_faults.specs.Helps.{is_surely, is_wide, text_of};
ghost use Rattle.std.specs.Prelude.{◌≡◌};

use fault_help::{
    barred_example, barred_expected, barred_text, formula_example, formula_expected, head_example,
    head_expected, head_text, over_example, over_expected, over_text,
};
use fault_line::formula_code_text;
use over_answers::{AskFault, OverStop};
use over_questions::{BarredKind, EntryFault, OverQuestionFault};
use question_forms::QuestionFault;
use question_instances::OverCode;
use question_text::{Asking, HeadCode, read_head};
use rctl_grammar::FormulaCode;

/// What is wrong, what was expected, and an example.
#[derive(Clone, Copy, Debug)]
pub struct Help {
    pub wrong: &'static [u8],
    pub expected: &'static [u8],
    pub example: &'static [u8],
}

/// More alternatives or parts than may be asked together.
pub const TOO_MANY: Help = Help {
    wrong: b"Q6 too many parts",
    expected: b"at most 64 alternatives and 128 parts in all questions together",
    example: b"some of the questions in another call",
};

// No processes have the names that a question uses of them.
const NO_INSTANCE: Help = Help {
    wrong: b"Q12 no such processes",
    expected: b"variables that some of the processes have",
    example: b"for p q: never p.cs = 1 & q.cs = 1",
};

fn head_help(code: HeadCode) -> Help
    ensures { text_of result ≡ helps.head_help code }
{
    Help {
        wrong: head_text(code),
        expected: head_expected(code),
        example: head_example(code),
    }
}

fn over_help(code: OverCode) -> Help
    ensures { text_of result ≡ helps.over_help code }
{
    Help {
        wrong: over_text(code),
        expected: over_expected(code),
        example: over_example(code),
    }
}

fn barred_help(kind: BarredKind) -> Help
    ensures { text_of result ≡ helps.barred_help kind }
{
    Help {
        wrong: barred_text(kind),
        expected: barred_expected(kind),
        example: barred_example(kind),
    }
}

// Whether the formula has several processes where one is wanted.
fn is_wide(code: FormulaCode) -> bool
    ensures { result ≡ is_wide code }
{
    match code {
        FormulaCode::NotRegular | FormulaCode::DisjunctionInside => true,
        FormulaCode::Token
        | FormulaCode::Syntax
        | FormulaCode::Number
        | FormulaCode::TooLong
        | FormulaCode::TooDeep
        | FormulaCode::TooManyNodes
        | FormulaCode::OutsideClass(_)
        | FormulaCode::UnknownProcess
        | FormulaCode::UnknownVariable
        | FormulaCode::UnknownWatch
        | FormulaCode::WatchTwice => false,
    }
}

// Of a formula, behind the word `surely` or not.
fn formula_help(surely: bool, code: FormulaCode) -> Help
    ensures { text_of result ≡ helps.formula_help surely code }
{
    let wrong = formula_code_text(code);
    if surely && is_wide(code) {
        return Help {
            wrong,
            expected: b"variables of one process behind `surely`",
            example: b"surely client.sent = 1",
        };
    }
    Help {
        wrong,
        expected: formula_expected(code),
        example: formula_example(code),
    }
}

fn question_help(surely: bool, fault: QuestionFault) -> Help
    ensures { text_of result ≡ helps.question_help surely fault }
{
    match fault {
        QuestionFault::Head(fault) => head_help(fault.code),
        QuestionFault::Formula(_, fault) => formula_help(surely, fault.code),
    }
}

fn over_question_help(fault: OverQuestionFault) -> Help
    ensures { text_of result ≡ helps.over_question_help fault }
{
    match fault {
        OverQuestionFault::Question(fault) => question_help(false, fault),
        OverQuestionFault::Barred(_, barred) => barred_help(barred.kind),
    }
}

// Whether the words of the question's form are `surely`.
fn is_surely(text: &[u8]) -> bool
    ensures { result ≡ is_surely text.now }
{
    match read_head(text) {
        Ok(head) => match head.asking {
            Asking::Surely => true,
            Asking::Never | Asking::Can | Asking::Always | Asking::AtEnd | Asking::Plain => false,
        },
        Err(_) => false,
    }
}

/// Of a question that can't be read.
pub fn entry_help(text: &[u8], fault: EntryFault) -> Help
    ensures { text_of result ≡ helps.entry_help text.now fault }
{
    match fault {
        EntryFault::One(fault) => question_help(is_surely(text), fault),
        EntryFault::For(fault) => over_help(fault.code),
        EntryFault::Over(_, fault) => over_question_help(fault),
    }
}

fn ask_help(fault: AskFault) -> Help
    ensures { text_of result ≡ helps.ask_help fault }
{
    match fault {
        AskFault::Barred(_, barred) => barred_help(barred.kind),
        AskFault::TooMany => TOO_MANY,
    }
}

/// Of a question over processes that has no answer.
pub fn stop_help(stop: OverStop) -> Help
    ensures { text_of result ≡ helps.stop_help stop }
{
    match stop {
        OverStop::Text(fault) => question_help(false, fault),
        OverStop::Instance(fault) => ask_help(fault.why),
        OverStop::NoInstance => NO_INSTANCE,
    }
}
