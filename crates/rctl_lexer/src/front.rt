//! What stands at the front of a text.

ghost use Rattle.std.specs.Prelude.{◌≡◌, ◌+◌, ◌<◌, ◌≤◌, length, IfOk};
ghost use Rattle.rctl_lexer.specs.Front.{begins_number, front, is_blank, leads_number};
ghost use Rattle.rctl_lexer.specs.Front.{number_front, number_value, sign_front, sign_of};
ghost use Rattle.rctl_lexer.specs.Front.{starts_digit, with_equals, word_front};
ghost use Rattle.rctl_lexer.specs.inside.Front.{IsShorter};

use crate::run::{Class, run_of};
use crate::word::word_of;
use pota_base::{NoMemory, read_i64};
use pota_names::{Name, is_start_of_name};
use rctl_grammar::{Compare, Kind};
use std::alloc::Global;

/// What stands at the front of a text.
#[derive(Drop)]
pub enum Front {
    /// A space or a tab.
    Blank,
    /// A token, and how many of its bytes follow the first.
    Token(Kind, usize),
    /// No token.
    Bad,
}

fn is_blank(byte: u8) -> bool
    ensures { result ≡ is_blank byte }
{
    byte == b' ' || byte == b'\t'
}

fn starts_digit(text: &[u8]) -> bool
    ensures { result ≡ starts_digit text.now }
{
    match text {
        [] => false,
        [first, ..] => first.is_ascii_digit(),
    }
}

// The word of the first byte and `extra` more.
fn word_front(alloc: Global, text: &[u8], extra: usize) -> Result<Front, NoMemory>
    requires { extra < length text.now }
    ensures word { IfOk result (λ found. found ≡ word_front text.now extra) }
    ensures within { IfOk result (λ found. IsShorter (length text.now) found) }
{
    let word = &text[..extra + 1];
    match Name::new(alloc, word)? {
        None => Ok(Front::Bad),
        Some(name) => Ok(Front::Token(Kind::Word(word_of(word), name), extra)),
    }
}

// A digit, or a `-` before a digit.
fn leads_number(byte: u8, rest: &[u8]) -> bool
    ensures { result ≡ leads_number byte rest.now }
{
    byte.is_ascii_digit() || byte == b'-' && starts_digit(rest)
}

// Whether `first` and `rest` begin with a number, where `first` is a digit or `-`.
fn begins_number(first: u8, rest: &[u8]) -> bool
    ensures { result ≡ begins_number first rest.now }
{
    match first {
        b'-' => starts_digit(rest) && rest[0] != b'0',
        b'0' => !starts_digit(rest),
        _ => true,
    }
}

fn number_value(text: &[u8]) -> Option<i64>
    ensures { result ≡ number_value text.now }
{
    read_i64(text)
}

// The number of the first byte and `extra` more.
#[tactic(auto, unfolding(crate::specs::Front::number_front))]
fn number_front(text: &[u8], extra: usize) -> Front
    requires { extra < length text.now }
    ensures number { result ≡ number_front text.now extra }
    ensures within { IsShorter (length text.now) result }
{
    Front::Token(Kind::Number(number_value(&text[..extra + 1])), extra)
}

// The sign of this one byte.
#[tactic(auto, unfolding(crate::specs::Front::sign_of))]
fn sign_of(byte: u8) -> Option<Kind>
    ensures { result ≡ sign_of byte }
{
    match byte {
        b'(' => Some(Kind::OpenRound),
        b')' => Some(Kind::CloseRound),
        b'[' => Some(Kind::OpenSquare),
        b']' => Some(Kind::CloseSquare),
        b',' => Some(Kind::Comma),
        b'.' => Some(Kind::Dot),
        b'@' => Some(Kind::At),
        b'!' => Some(Kind::Bang),
        b'&' => Some(Kind::Amp),
        b'|' => Some(Kind::Bar),
        b'-' => Some(Kind::Minus),
        b'=' => Some(Kind::Compare(Compare::Eq)),
        b'<' => Some(Kind::Compare(Compare::Lt)),
        b'>' => Some(Kind::Compare(Compare::Gt)),
        _ => None,
    }
}

// The sign of this byte and a `=`.
#[tactic(auto, unfolding(crate::specs::Front::with_equals))]
fn with_equals(byte: u8) -> Option<Kind>
    ensures { result ≡ with_equals byte }
{
    match byte {
        b'!' => Some(Kind::Compare(Compare::Ne)),
        b'<' => Some(Kind::Compare(Compare::Le)),
        b'>' => Some(Kind::Compare(Compare::Ge)),
        _ => None,
    }
}

#[tactic(auto, unfolding(crate::specs::Front::sign_front))]
fn sign_front(first: u8, rest: &[u8]) -> Front
    ensures sign { result ≡ sign_front first rest.now }
    ensures within { IsShorter (length rest.now + 1) result }
{
    if let [b'=', ..] = rest {
        if let Some(kind) = with_equals(first) {
            return Front::Token(kind, 1);
        }
    }
    match sign_of(first) {
        Some(kind) => Front::Token(kind, 0),
        None => Front::Bad,
    }
}

/// What stands at the front of the text.
#[tactic(auto, unfolding(crate::specs::Front::front))]
pub fn front_of(alloc: Global, text: &[u8]) -> Result<Front, NoMemory>
    ensures front { IfOk result (λ found. found ≡ front text.now) }
    ensures within { IfOk result (λ found. IsShorter (length text.now) found) }
{
    let [first, rest @ ..] = text else {
        return Ok(Front::Bad);
    };
    if is_blank(*first) {
        return Ok(Front::Blank);
    }
    if is_start_of_name(*first) {
        return word_front(alloc, text, run_of(Class::Word, rest));
    }
    if !leads_number(*first, rest) {
        return Ok(sign_front(*first, rest));
    }
    if !begins_number(*first, rest) {
        return Ok(Front::Bad);
    }
    Ok(number_front(text, run_of(Class::Digits, rest)))
}
