//! The tokens of a formula's text.
//!
//! `lex` gives for each text of at most 65,536 bytes exactly the tokens of its definition, each
//! with its place, up to the end of the text or the first byte at which no token stands (`lexed`).
//! The places rise and lie before that end (`ascend`, `end`).
#![tactic(auto)]

mod front;
mod lexer;
mod run;
mod word;

pub use lexer::{Lexed, lex};
