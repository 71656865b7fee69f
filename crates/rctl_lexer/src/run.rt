//! How far bytes of one class go.

ghost use Rattle.std.specs.Prelude.{◌≡◌, ◌≤◌, length};
ghost use Rattle.rctl_lexer.specs.Runs.{run_of};
ghost use Rattle.rctl_lexer.specs.inside.Runs.{is_of};

use pota_names::is_byte_of_name;

/// The bytes that go on a word or a number.
#[derive(Clone, Copy)]
pub enum Class {
    Word,
    Digits,
}

impl Class {
    /// Whether the byte goes on.
    pub fn has(self, byte: u8) -> bool
        ensures { result ≡ is_of self byte }
    {
        match self {
            Class::Word => is_byte_of_name(byte),
            Class::Digits => byte.is_ascii_digit(),
        }
    }
}

/// How many bytes at the front go on.
pub fn run_of(class: Class, bytes: &[u8]) -> usize
    ensures run { result ≡ run_of (is_of class) bytes.now }
    ensures within { result ≤ length bytes.now }
{
    for i in 0..bytes.len() {
        if !class.has(bytes[i]) {
            return i;
        }
    }
    bytes.len()
}
