//! The name of a question.
ghost use Rattle.question_text.specs.Heads.{is_form, is_taken, name_of};
ghost use Rattle.std.specs.Prelude.{◌≡◌, ◌≤◌, length};
ghost use Rattle.pota_base.specs.Limits.{longest_question};

use crate::bytes::{Class, end_of_words, run_of};
use crate::front::{Front, front_of};
use crate::head::{HeadCode, HeadFault, Span, fault};

// Whether the front is the words of a form, and nothing is behind them.
fn is_form(front: Front, len: usize) -> bool
    ensures { result ≡ is_form front len }
{
    match front {
        Front::Words(_, from) => from == len,
        Front::NoWords => false,
        Front::NoEnd(_) => false,
    }
}

// Whether the name is the words of a form, or begins with the word `for`.
fn is_taken(title: &[u8]) -> bool
    ensures { result ≡ is_taken title.now }
{
    let word = &title[..run_of(Class::Word, title)];
    is_form(front_of(title), title.len()) || word == b"for".as_slice()
}

/// Where the name is in the bytes before the colon.
#[tactic(auto, unfolding(crate::specs::Heads::name_of))]
pub fn name_of(before: &[u8]) -> Result<Span, HeadFault>
    requires { length before.now ≤ longest_question }
    ensures { result ≡ name_of before.now }
{
    let from = run_of(Class::Blank, before);
    let words = &before[from..];
    let end = end_of_words(words);
    if end == 0 {
        return Err(fault(HeadCode::NoName, before.len()));
    }
    let title = &words[..end];
    if is_taken(title) {
        return Err(fault(HeadCode::WordsAsName, from));
    }
    let good = run_of(Class::Title, title);
    if good < end {
        return Err(fault(HeadCode::NameByte, from + good));
    }
    Ok(Span {
        from: from as u32,
        to: (from + end) as u32,
    })
}
