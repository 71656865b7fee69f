//! The tokens that are always the same.

ghost use Rattle.rctl_parse.specs.Reading.{Faults};
ghost use Rattle.rctl_parse.specs.inside.Reading.{found, here, symbol_in};
ghost use Rattle.std.specs.Prelude.{◌≡◌, None, Some, is_some, MatchOption, MatchResult};

use crate::around::{Stop, refused_here};
use rctl_grammar::{End, Kind, Token, Word};

#[derive(Clone, Copy)]
pub enum Symbol {
    OpenRound,
    CloseRound,
    OpenSquare,
    CloseSquare,
    Comma,
    Dot,
    At,
    Amp,
    Bar,
    Minus,
    /// The word `U`.
    Until,
}

fn is_symbol(kind: &Kind, symbol: Symbol) -> bool
    ensures { result ≡ is_some (symbol_in symbol kind.now 0) }
{
    match symbol {
        Symbol::OpenRound => matches!(kind, Kind::OpenRound),
        Symbol::CloseRound => matches!(kind, Kind::CloseRound),
        Symbol::OpenSquare => matches!(kind, Kind::OpenSquare),
        Symbol::CloseSquare => matches!(kind, Kind::CloseSquare),
        Symbol::Comma => matches!(kind, Kind::Comma),
        Symbol::Dot => matches!(kind, Kind::Dot),
        Symbol::At => matches!(kind, Kind::At),
        Symbol::Amp => matches!(kind, Kind::Amp),
        Symbol::Bar => matches!(kind, Kind::Bar),
        Symbol::Minus => matches!(kind, Kind::Minus),
        Symbol::Until => matches!(kind, Kind::Word(Word::U, _)),
    }
}

/// The place of the first token and the tokens behind it, where it is this symbol.
pub fn after(tokens: &[Token], symbol: Symbol) -> Option<(u32, &[Token])>
    ensures { MatchOption result (found (symbol_in symbol) tokens.now ≡ None)
        (λ x. found (symbol_in symbol) tokens.now ≡ Some (x.0, x.1.now)) }
{
    match tokens {
        [first, rest @ ..] if is_symbol(&first.kind, symbol) => Some((first.at, rest)),
        _ => None,
    }
}

/// The same where only this symbol may stand. `Fault` where another token stands, or none.
pub fn wanted(tokens: &[Token], end: End, symbol: Symbol) -> Result<(u32, &[Token]), Stop>
    ensures { MatchResult result (λ x. found (symbol_in symbol) tokens.now ≡ Some (x.0, x.1.now))
        (λ stop. Faults stop (λ fault. (found (symbol_in symbol) tokens.now ≡ None)
        × (fault ≡ here tokens.now end))) }
{
    match after(tokens, symbol) {
        Some(x) => Ok(x),
        None => Err(refused_here(tokens, end)),
    }
}
