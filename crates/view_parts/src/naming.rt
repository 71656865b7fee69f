//! What the tokens of a formula name.
ghost use Rattle.std.specs.Prelude.{◌≡◌};
ghost use Rattle.view_parts.specs.Naming.{is_word, is_transit, is_opening, is_comma};
ghost use Rattle.view_parts.specs.Naming.{begin_with_variable, begin_with_owner};
ghost use Rattle.view_parts.specs.Naming.{begin_with_channel, begin_with_watch, begin_with_next};
ghost use Rattle.view_parts.specs.Naming.{beginning, names};

use rctl_grammar::{Kind, Token, Word};

/// What is looked for among the tokens of a formula.
#[derive(Clone, Copy)]
pub enum Sought<'a> {
    /// A variable, by the names of its process and its own.
    Variable(&'a [u8], &'a [u8]),
    /// Some variable of the process of this name.
    Owner(&'a [u8]),
    /// A channel, by the names of its sender and its receiver.
    Channel(&'a [u8], &'a [u8]),
    /// A watch of the process of this name.
    Watch(&'a [u8]),
    /// The operator `EX`.
    Next,
}

fn is_word(name: &[u8], kind: &Kind) -> bool
    ensures { result ≡ is_word name.now kind.now }
{
    match kind {
        Kind::Word(_, bytes) => bytes.as_bytes() == name,
        _ => false,
    }
}

// Whether the token begins an atom of a channel.
fn is_transit(kind: &Kind) -> bool
    ensures { result ≡ is_transit kind.now }
{
    match kind {
        Kind::Word(Word::InTransit | Word::Empty, _) => true,
        _ => false,
    }
}

fn is_opening(kind: &Kind) -> bool
    ensures { result ≡ is_opening kind.now }
{
    matches!(kind, Kind::OpenRound)
}

fn is_comma(kind: &Kind) -> bool
    ensures { result ≡ is_comma kind.now }
{
    matches!(kind, Kind::Comma)
}

// Whether the tokens begin with `PROCESS.VARIABLE`.
fn begin_with_variable(process: &[u8], variable: &[u8], tokens: &[Token]) -> bool
    ensures { result ≡ begin_with_variable process.now variable.now tokens.now }
{
    match tokens {
        [first, dot, last, ..] => match &dot.kind {
            Kind::Dot => is_word(process, &first.kind) && is_word(variable, &last.kind),
            _ => false,
        },
        _ => false,
    }
}

// Whether the tokens begin with `PROCESS.`.
fn begin_with_owner(process: &[u8], tokens: &[Token]) -> bool
    ensures { result ≡ begin_with_owner process.now tokens.now }
{
    match tokens {
        [first, dot, ..] => match &dot.kind {
            Kind::Dot => is_word(process, &first.kind),
            _ => false,
        },
        _ => false,
    }
}

// Whether the tokens begin with `intransit(SENDER,RECEIVER` or `empty(SENDER,RECEIVER`.
fn begin_with_channel(sender: &[u8], receiver: &[u8], tokens: &[Token]) -> bool
    ensures { result ≡ begin_with_channel sender.now receiver.now tokens.now }
{
    match tokens {
        [atom, opened, first, comma, last, ..] => {
            is_transit(&atom.kind)
                && is_opening(&opened.kind)
                && is_word(sender, &first.kind)
                && is_comma(&comma.kind)
                && is_word(receiver, &last.kind)
        }
        _ => false,
    }
}

// Whether the tokens begin with `PROCESS@`.
fn begin_with_watch(process: &[u8], tokens: &[Token]) -> bool
    ensures { result ≡ begin_with_watch process.now tokens.now }
{
    match tokens {
        [first, at, ..] => match &at.kind {
            Kind::At => is_word(process, &first.kind),
            _ => false,
        },
        _ => false,
    }
}

// Whether the tokens begin with the operator `EX`: behind it stands the name of a process.
fn begin_with_next(tokens: &[Token]) -> bool
    ensures { result ≡ begin_with_next tokens.now }
{
    match tokens {
        [first, name, ..] => match (&first.kind, &name.kind) {
            (Kind::Word(Word::Ex, _), Kind::Word(..)) => true,
            _ => false,
        },
        _ => false,
    }
}

// Whether the tokens begin with what is sought.
fn begin_with(sought: Sought<'_>, tokens: &[Token]) -> bool
    ensures { result ≡ beginning sought.entry tokens.now }
{
    match sought {
        Sought::Variable(process, variable) => begin_with_variable(process, variable, tokens),
        Sought::Owner(process) => begin_with_owner(process, tokens),
        Sought::Channel(sender, receiver) => begin_with_channel(sender, receiver, tokens),
        Sought::Watch(process) => begin_with_watch(process, tokens),
        Sought::Next => begin_with_next(tokens),
    }
}

/// Whether what is sought stands among the tokens of a formula.
pub fn names(sought: Sought<'_>, tokens: &[Token]) -> bool
    ensures { result ≡ names (beginning sought.entry) tokens.now }
{
    for i in 0..tokens.len() {
        if begin_with(sought, &tokens[i..]) {
            return true;
        }
    }
    false
}
