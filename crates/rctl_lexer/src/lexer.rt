//! Tokens from bytes.

ghost use Rattle.std.specs.Prelude.{◌≡◌, ◌≤◌, length, IfOk};
ghost use Rattle.pota_base.specs.Limits.{longest_lexed};
ghost use Rattle.rctl_lexer.specs.Lexing.{lex, place_of, Ascend, IsEndOf};

use crate::front::{Front, front_of};
use pota_base::{List, NoMemory};
use rctl_grammar::{End, Token};
use std::alloc::Global;

/// The tokens of a text.
#[derive(Debug, Drop)]
pub struct Lexed {
    /// The tokens up to the end, in their order.
    pub tokens: List<Token>,
    /// The end of the text, or the first byte at which no token begins.
    pub end: End,
}

/// The tokens of a text, each as long as it can be, up to the end of the text or the first byte at
/// which no token begins.
pub fn lex(alloc: Global, text: &[u8]) -> Result<Lexed, NoMemory>
    requires { length text.now ≤ longest_lexed }
    ensures lexed { IfOk result (λ lexed. lexed ≡ lex text.now) }
    ensures ascend { IfOk result (λ lexed. Ascend 0 lexed.tokens (place_of lexed.end)) }
    ensures end { IfOk result (λ lexed. IsEndOf (length text.now) lexed.end) }
{
    let mut tokens = List::new(alloc);
    let mut at = 0u32;
    let mut rest = text;
    while !rest.is_empty() {
        match front_of(alloc, rest)? {
            Front::Bad => {
                return Ok(Lexed {
                    tokens,
                    end: End::BadToken(at),
                });
            }
            Front::Blank => {
                rest = &rest[1..];
                at += 1;
            }
            Front::Token(kind, extra) => {
                tokens.push(Token { kind, at })?;
                rest = &rest[extra + 1..];
                at += extra as u32 + 1;
            }
        }
    }
    Ok(Lexed {
        tokens,
        end: End::Ends(at),
    })
}
