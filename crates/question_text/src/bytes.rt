//! How far bytes of one class go.
ghost use Rattle.question_text.specs.Bytes.{end_of_words, is_blank, is_title_byte, run_of};
ghost use Rattle.question_text.specs.inside.Classes.{is_of};
ghost use Rattle.std.specs.Prelude.{◌≡◌, ◌≤◌, length};

use pota_names::is_byte_of_name;

/// Bytes that stand side by side.
#[derive(Clone, Copy)]
pub enum Class {
    /// Spaces and tabs.
    Blank,
    /// The bytes of a word: letters, digits and `_`.
    Word,
    /// The bytes that a question's name may have.
    Title,
    /// All but the colon.
    NoColon,
}

fn is_blank(byte: u8) -> bool
    ensures { result ≡ is_blank byte }
{
    byte == b' ' || byte == b'\t'
}

fn is_title_byte(byte: u8) -> bool
    ensures { result ≡ is_title_byte byte }
{
    byte >= b' ' && byte != 127 && byte != b'#' && byte != b'\\'
}

impl Class {
    /// Whether the byte is one of them.
    pub fn has(self, byte: u8) -> bool
        ensures { result ≡ is_of self byte }
    {
        match self {
            Class::Blank => is_blank(byte),
            Class::Word => is_byte_of_name(byte),
            Class::Title => is_title_byte(byte),
            Class::NoColon => byte != b':',
        }
    }
}

/// How many bytes at the front are of the class.
pub fn run_of(class: Class, bytes: &[u8]) -> usize
    ensures run { result ≡ run_of (is_of class) bytes.now }
    ensures within { result ≤ length bytes.now }
{
    for i in 0..bytes.len() {
        if !class.has(bytes[i]) {
            return i;
        }
    }
    bytes.len()
}

/// Where the last byte ends that is no blank, 0 where each is one.
pub fn end_of_words(bytes: &[u8]) -> usize
    ensures end { result ≡ end_of_words bytes.now }
    ensures within { result ≤ length bytes.now }
{
    let mut end = bytes.len();
    'end: while end > 0 && is_blank(bytes[end - 1]) {
        end -= 1;
    }
    end
}
