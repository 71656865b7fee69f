//! What the first tokens of a unary begin.

ghost use Rattle.rctl_parse.specs.inside.Parts.{sign_of, IsOpening, IsRole, IsRoleAlone};
ghost use Rattle.std.specs.Prelude.{◌≡◌};

use crate::symbol::{Symbol, after};
use pota_names::Name;
use rctl_grammar::{Kind, Operator, Token, Word};

/// The first token of a unary, and the tokens behind it.
#[derive(Clone, Copy)]
pub enum Opening<'a> {
    Negation(u32, &'a [Token]),
    Group(u32, &'a [Token]),
    Word(Word, &'a Name, u32, &'a [Token]),
    /// No unary begins here.
    Nothing,
}

/// What a word begins in the place of a unary.
#[derive(Clone, Copy)]
pub enum Role<'a> {
    Operator(Operator),
    /// The next event of a process.
    Stepping,
    /// An until, on all paths or on some path.
    Path(bool),
    Leaf(LeafRole<'a>),
}

#[derive(Clone, Copy)]
pub enum LeafRole<'a> {
    /// A comparison of a variable of the process that the word names, with the tokens behind the
    /// dot.
    Compared(&'a [Token]),
    /// A watch on that process, with the tokens behind the `@`.
    Watched(&'a [Token]),
    Constant(bool),
    Transit,
    Emptiness,
    /// No formula has the word here.
    Nothing,
}

/// What stands first.
pub fn opening_of(tokens: &[Token]) -> Opening<'_>
    ensures { IsOpening result tokens.now }
{
    match tokens {
        [
            Token {
                kind: Kind::Bang,
                at,
            },
            rest @ ..,
        ] => Opening::Negation(*at, rest),
        [
            Token {
                kind: Kind::OpenRound,
                at,
            },
            rest @ ..,
        ] => Opening::Group(*at, rest),
        [
            Token {
                kind: Kind::Word(word, name),
                at,
            },
            rest @ ..,
        ] => Opening::Word(*word, name, *at, rest),
        _ => Opening::Nothing,
    }
}

// The role of a word that is no name.
fn role_alone<'a>(word: Word) -> Role<'a>
    ensures { IsRoleAlone result word }
{
    match word {
        Word::Ef => Role::Operator(Operator::Ef),
        Word::Ag => Role::Operator(Operator::Ag),
        Word::Eg => Role::Operator(Operator::Eg),
        Word::Ex => Role::Stepping,
        Word::Af => Role::Operator(Operator::Af),
        Word::Ax => Role::Operator(Operator::Ax),
        Word::E => Role::Path(false),
        Word::A => Role::Path(true),
        Word::True => Role::Leaf(LeafRole::Constant(true)),
        Word::False => Role::Leaf(LeafRole::Constant(false)),
        Word::InTransit => Role::Leaf(LeafRole::Transit),
        Word::Empty => Role::Leaf(LeafRole::Emptiness),
        Word::U => Role::Leaf(LeafRole::Nothing),
        Word::Plain => Role::Leaf(LeafRole::Nothing),
    }
}

/// The role of a word before these tokens. Before `.` or `@` it names a process, whichever word it
/// is.
pub fn role_of(word: Word, rest: &[Token]) -> Role<'_>
    ensures { IsRole result word rest.now }
{
    if let Some((_, behind)) = after(rest, Symbol::Dot) {
        return Role::Leaf(LeafRole::Compared(behind));
    }
    if let Some((_, behind)) = after(rest, Symbol::At) {
        return Role::Leaf(LeafRole::Watched(behind));
    }
    role_alone(word)
}
