use crate::tree::Compare;
use pota_names::Name;

/// What a word is where it is no name.
#[derive(Clone, Copy, Debug, PartialEq, Eq)]
pub enum Word {
    Ef,
    Ag,
    Eg,
    Ex,
    Af,
    Ax,
    E,
    A,
    U,
    True,
    False,
    InTransit,
    Empty,
    /// It is a name everywhere.
    Plain,
}

/// The tokens of a formula's text.
#[derive(Debug, Drop)]
pub enum Kind {
    /// A word: what it is where it is no name, and its bytes.
    Word(Word, Name),
    /// A number, `None` outside the range of 64 bits.
    Number(Option<i64>),
    OpenRound,
    CloseRound,
    OpenSquare,
    CloseSquare,
    Comma,
    Dot,
    At,
    Bang,
    Amp,
    Bar,
    /// A `-` without a digit behind it.
    Minus,
    Compare(Compare),
}

/// A token, and the byte of the text at which it begins, from 0.
#[derive(Debug, Drop)]
pub struct Token {
    pub kind: Kind,
    pub at: u32,
}

/// What follows the tokens of a text.
#[derive(Clone, Copy, Debug, PartialEq, Eq)]
pub enum End {
    /// Nothing: the length of the text.
    Ends(u32),
    /// The byte at which no token begins, from 0.
    BadToken(u32),
}
