//! The words that are more than names.

ghost use Rattle.std.specs.Prelude.{◌≡◌};
ghost use Rattle.rctl_lexer.specs.Words.{word_of};

use rctl_grammar::Word;

/// What the word is where it is no name.
#[tactic(auto, unfolding(crate::specs::Words::word_of))]
pub fn word_of(word: &[u8]) -> Word
    ensures { result ≡ word_of word.now }
{
    if word == b"EF".as_slice() {
        Word::Ef
    } else if word == b"AG".as_slice() {
        Word::Ag
    } else if word == b"EG".as_slice() {
        Word::Eg
    } else if word == b"EX".as_slice() {
        Word::Ex
    } else if word == b"AF".as_slice() {
        Word::Af
    } else if word == b"AX".as_slice() {
        Word::Ax
    } else if word == b"E".as_slice() {
        Word::E
    } else if word == b"A".as_slice() {
        Word::A
    } else if word == b"U".as_slice() {
        Word::U
    } else if word == b"true".as_slice() {
        Word::True
    } else if word == b"false".as_slice() {
        Word::False
    } else if word == b"intransit".as_slice() {
        Word::InTransit
    } else if word == b"empty".as_slice() {
        Word::Empty
    } else {
        Word::Plain
    }
}
