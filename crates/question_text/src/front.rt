//! The words of the forms.
ghost use Rattle.question_text.specs.Forms.{at_end, behind_word, front_of};
ghost use Rattle.question_text.specs.Forms.{names_process, of_word};
ghost use Rattle.question_text.specs.inside.Fronts.{IsWithin};
ghost use Rattle.std.specs.Prelude.{◌≡◌, ◌≤◌, length, drop};

use crate::bytes::{Class, run_of};

/// How a question asks its formula, by the words before it.
#[derive(Clone, Copy, Debug, PartialEq, Eq)]
pub enum Asking {
    Never,
    Can,
    Always,
    Surely,
    /// `at end`.
    AtEnd,
    /// No words: a formula as it is.
    Plain,
}

/// What a text begins with.
#[derive(Clone, Copy, Debug, PartialEq, Eq)]
pub enum Front {
    /// The words of a form, and where the first byte behind them and the blanks there is.
    Words(Asking, usize),
    /// No such words.
    NoWords,
    /// `at`, and at this byte no `end`.
    NoEnd(usize),
}

/// Whether the byte behind a word and blanks makes it the name of a process.
pub fn names_process(rest: &[u8]) -> bool
    ensures { result ≡ names_process rest.now }
{
    match rest {
        [b'.', ..] | [b'@', ..] => true,
        _ => false,
    }
}

// The form of one word.
#[tactic(auto, unfolding(crate::specs::Forms::of_word))]
fn of_word(word: &[u8]) -> Asking
    ensures { result ≡ of_word word.now }
{
    if word == b"never".as_slice() {
        Asking::Never
    } else if word == b"can".as_slice() {
        Asking::Can
    } else if word == b"always".as_slice() {
        Asking::Always
    } else if word == b"surely".as_slice() {
        Asking::Surely
    } else {
        Asking::Plain
    }
}

/// Where the first byte behind the first word and the blanks there is.
pub fn behind_word(text: &[u8]) -> usize
    ensures behind { result ≡ behind_word text.now }
    ensures within { result ≤ length text.now }
{
    let word = run_of(Class::Word, text);
    word + run_of(Class::Blank, &text[word..])
}

// The form behind `at`, of which the next word is to be `end`.
fn at_end(text: &[u8], from: usize) -> Front
    requires { from ≤ length text.now }
    ensures front { result ≡ at_end text.now from }
    ensures within { IsWithin (length text.now) result }
{
    let rest = &text[from..];
    let word = run_of(Class::Word, rest);
    if &rest[..word] == b"end".as_slice() {
        Front::Words(Asking::AtEnd, from + behind_word(rest))
    } else {
        Front::NoEnd(from)
    }
}

/// What the text begins with.
#[tactic(auto, unfolding(crate::specs::Forms::front_of))]
pub fn front_of(text: &[u8]) -> Front
    ensures front { result ≡ front_of text.now }
    ensures within { IsWithin (length text.now) result }
{
    let word = &text[..run_of(Class::Word, text)];
    let from = behind_word(text);
    if names_process(&text[from..]) {
        return Front::NoWords;
    }
    if word == b"at".as_slice() {
        return at_end(text, from);
    }
    match of_word(word) {
        Asking::Plain => Front::NoWords,
        asking => Front::Words(asking, from),
    }
}
