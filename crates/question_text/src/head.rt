//! The head of a question: its name and the words of its form.
ghost use Rattle.question_text.specs.Heads.{form_head, head_of, headed, fault_at};
ghost use Rattle.question_text.specs.inside.Fronts.{IsWithin};
ghost use Rattle.std.specs.Prelude.{◌≡◌, ◌-◌, ◌≤◌, ℕ, length, IfOk};
ghost use Rattle.pota_base.specs.Limits.{longest_question};

use crate::bytes::{Class, run_of};
use crate::front::{Asking, Front, front_of};
use crate::name::name_of;
pub use pota_base::LONGEST_QUESTION;

/// Bytes of a text: from the first one on, up to the one before `to`.
#[derive(Clone, Copy, Debug, PartialEq, Eq)]
pub struct Span {
    pub from: u32,
    pub to: u32,
}

/// What a question begins with.
#[derive(Clone, Copy, Debug, PartialEq, Eq)]
pub struct Head {
    /// Where its name is.
    pub name: Option<Span>,
    pub asking: Asking,
    /// The byte from which on the rest is the formula.
    pub formula: u32,
}

/// What is wrong with a question before its formula.
#[derive(Clone, Copy, Debug, PartialEq, Eq)]
pub enum HeadCode {
    /// More than 8,192 bytes.
    TooLong,
    /// A colon, and nothing but blanks before it: a name is expected.
    NoName,
    /// The name is the words of a form, or begins with the word `for`: another name is expected,
    /// or no colon behind the form.
    WordsAsName,
    /// A control byte, a `#` or a `\` in a name.
    NameByte,
    /// `at`, and here no `end` behind it.
    NoEnd,
}

/// What is wrong with a question before its formula, and the byte at which it is, from 0.
#[derive(Clone, Copy, Debug, PartialEq, Eq)]
pub struct HeadFault {
    pub code: HeadCode,
    pub place: u32,
}

/// The fault of this code at this place.
pub fn fault(code: HeadCode, place: usize) -> HeadFault
    requires { place ≤ longest_question }
    ensures { result ≡ fault_at code place }
{
    HeadFault {
        code,
        place: place as u32,
    }
}

// The head with this name, whose front is at this byte.
fn headed(name: Option<Span>, from: usize, front: Front) -> Result<Head, HeadFault>
    requires here { from ≤ longest_question }
    requires within { IsWithin (longest_question - from) front }
    ensures head { result ≡ headed name from front }
    ensures within { (len : ℕ) → from ≤ len → IsWithin (len - from) front
        → IfOk result (λ head. head.formula ≤ len) }
{
    match front {
        Front::Words(asking, behind) => Ok(Head {
            name,
            asking,
            formula: (from + behind) as u32,
        }),
        Front::NoWords => Ok(Head {
            name,
            asking: Asking::Plain,
            formula: from as u32,
        }),
        Front::NoEnd(at) => Err(fault(HeadCode::NoEnd, from + at)),
    }
}

// The head with this name, whose form is looked for from a byte on.
fn form_head(name: Option<Span>, at: usize, text: &[u8]) -> Result<Head, HeadFault>
    requires short { length text.now ≤ longest_question }
    requires within { at ≤ length text.now }
    ensures head { result ≡ form_head name at text.now }
    ensures within { IfOk result (λ head. head.formula ≤ length text.now) }
{
    let from = at + run_of(Class::Blank, &text[at..]);
    headed(name, from, front_of(&text[from..]))
}

/// Reads the name of a question and the words of its form.
#[tactic(auto, unfolding(crate::specs::Heads::head_of))]
pub fn read_head(text: &[u8]) -> Result<Head, HeadFault>
    ensures head { result ≡ head_of text.now }
    ensures within { IfOk result (λ head. head.formula ≤ length text.now) }
{
    if text.len() > LONGEST_QUESTION {
        return Err(fault(HeadCode::TooLong, LONGEST_QUESTION));
    }
    let colon = run_of(Class::NoColon, text);
    if colon == text.len() {
        return form_head(None, 0, text);
    }
    match name_of(&text[..colon]) {
        Ok(span) => form_head(Some(span), colon + 1, text),
        Err(fault) => Err(fault),
    }
}
