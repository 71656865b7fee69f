//! The names that stand for processes, before the form of a question.
ghost use Rattle.question_instances.specs.Over.{begins_name, begins_over, closed_at, fault_at};
ghost use Rattle.question_instances.specs.Over.{is_at, IsOverIn, IsSpanIn, over_at, over_of};
ghost use Rattle.question_instances.specs.Over.{past_blanks, past_word, span_at, with_first};
ghost use Rattle.question_instances.specs.Over.{word_at};
ghost use Rattle.std.specs.Prelude.{◌≡◌, ◌+◌, ◌≤◌, drop, length, IfOk, IfSome};
ghost use Rattle.pota_base.specs.Limits.{longest_question};

use pota_names::is_start_of_name;
use question_text::{Class, LONGEST_QUESTION, Span, behind_word, names_process, run_of};

/// One or two names that stand for processes.
#[derive(Clone, Copy, Debug, PartialEq, Eq)]
pub struct Over {
    /// The byte at which the word `for` begins.
    pub from: u32,
    pub first: Span,
    pub second: Option<Span>,
    /// The byte behind the colon.
    pub to: u32,
}

/// What is wrong behind the word `for`.
#[derive(Clone, Copy, Debug, PartialEq, Eq)]
pub enum OverCode {
    /// No name is here: one is expected that stands for a process.
    NoName,
    /// The second name is the first one again.
    SameName,
    /// No colon is here behind one or two names.
    NoColon,
}

/// What is wrong behind the word `for`, and the byte of the question at which it is, from 0.
#[derive(Clone, Copy, Debug, PartialEq, Eq)]
pub struct OverFault {
    pub code: OverCode,
    pub place: u32,
}

// The fault of this code at this place.
fn fault(code: OverCode, place: usize) -> OverFault
    requires { place ≤ longest_question }
    ensures { result ≡ fault_at code place }
{
    OverFault {
        code,
        place: place as u32,
    }
}

// Where the first byte from a place on is that is no blank.
fn past_blanks(at: usize, text: &[u8]) -> usize
    requires { at ≤ length text.now }
    ensures past { result ≡ past_blanks at text.now }
    ensures within { result ≤ length text.now }
{
    at + run_of(Class::Blank, &text[at..])
}

// Where the first byte behind the word at a place and the blanks there is.
fn past_word(at: usize, text: &[u8]) -> usize
    requires { at ≤ length text.now }
    ensures past { result ≡ past_word at text.now }
    ensures within { result ≤ length text.now }
{
    at + behind_word(&text[at..])
}

// The word at a place, which is empty where none is there.
fn word_at(at: usize, text: &[u8]) -> &[u8]
    requires { at ≤ length text.now }
    ensures word { result.now ≡ word_at at text.now }
    ensures within { at + length result.now ≤ length text.now }
{
    let rest = &text[at..];
    &rest[..run_of(Class::Word, rest)]
}

// Where the word at a place is.
fn span_at(at: usize, text: &[u8]) -> Span
    requires here { at ≤ length text.now }
    requires short { length text.now ≤ longest_question }
    ensures span { result ≡ span_at at text.now }
    ensures within { IsSpanIn (length text.now) result }
{
    let len = run_of(Class::Word, &text[at..]);
    Span {
        from: at as u32,
        to: (at + len) as u32,
    }
}

// Whether the word begins as a name does.
fn begins_name(word: &[u8]) -> bool
    ensures { result ≡ begins_name word.now }
{
    match word {
        [first, ..] => is_start_of_name(*first),
        [] => false,
    }
}

// Whether the byte is at that place.
fn is_at(byte: u8, at: usize, text: &[u8]) -> bool
    ensures { result ≡ is_at byte at text.now }
{
    at < text.len() && text[at] == byte
}

// Whether the word `for` is at a place, and is no process's name.
fn begins_over(at: usize, text: &[u8]) -> bool
    requires { at ≤ length text.now }
    ensures { result ≡ begins_over at text.now }
{
    let behind = past_word(at, text);
    word_at(at, text) == b"for".as_slice() && !names_process(&text[behind..])
}

// Behind the names, where a colon has to be.
fn closed_at(
    from: usize,
    end: usize,
    first: Span,
    second: Option<Span>,
    text: &[u8],
) -> Result<Over, OverFault>
    requires short { length text.now ≤ longest_question }
    requires from { from ≤ length text.now }
    requires here { end ≤ length text.now }
    requires first { IsSpanIn (length text.now) first }
    requires second { IfSome second (IsSpanIn (length text.now)) }
    ensures over { result ≡ closed_at from end first second text.now }
    ensures within { IfOk result (IsOverIn (length text.now)) }
{
    if !is_at(b':', end, text) {
        return Err(fault(OverCode::NoColon, end));
    }
    Ok(Over {
        from: from as u32,
        first,
        second,
        to: end as u32 + 1,
    })
}

// Behind the first name, where a second one may be.
fn with_first(from: usize, name: usize, at: usize, text: &[u8]) -> Result<Over, OverFault>
    requires short { length text.now ≤ longest_question }
    requires from { from ≤ length text.now }
    requires name { name ≤ length text.now }
    requires here { at ≤ length text.now }
    ensures over { result ≡ with_first from name at text.now }
    ensures within { IfOk result (IsOverIn (length text.now)) }
{
    let word = word_at(at, text);
    let first = span_at(name, text);
    if word.is_empty() {
        return closed_at(from, at, first, None, text);
    }
    if !begins_name(word) {
        return Err(fault(OverCode::NoName, at));
    }
    if word == word_at(name, text) {
        return Err(fault(OverCode::SameName, at));
    }
    let second = span_at(at, text);
    closed_at(from, past_word(at, text), first, Some(second), text)
}

// Behind the word `for`, which is at a place.
fn over_at(from: usize, text: &[u8]) -> Result<Over, OverFault>
    requires short { length text.now ≤ longest_question }
    requires here { from ≤ length text.now }
    ensures over { result ≡ over_at from text.now }
    ensures within { IfOk result (IsOverIn (length text.now)) }
{
    let at = past_word(from, text);
    if !begins_name(word_at(at, text)) {
        return Err(fault(OverCode::NoName, at));
    }
    with_first(from, at, past_word(at, text), text)
}

/// The names that stand for processes: behind the word `for`, with which the question begins or
/// which is behind its name and colon. `None` where there is no such word, or the text is longer
/// than a question may be.
#[tactic(auto, unfolding(crate::specs::Over::over_of))]
pub fn over_of(text: &[u8]) -> Result<Option<Over>, OverFault>
    ensures over { result ≡ over_of text.now }
    ensures within { IfOk result (λ found. IfSome found (IsOverIn (length text.now))) }
{
    if text.len() > LONGEST_QUESTION {
        return Ok(None);
    }
    let start = past_blanks(0, text);
    if begins_over(start, text) {
        return Ok(Some(over_at(start, text)?));
    }
    let colon = run_of(Class::NoColon, text);
    if colon == text.len() {
        return Ok(None);
    }
    let behind = past_blanks(colon + 1, text);
    if begins_over(behind, text) {
        return Ok(Some(over_at(behind, text)?));
    }
    Ok(None)
}
