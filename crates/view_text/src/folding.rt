//! Lines of at most 100 columns.
ghost use Rattle.std.specs.Prelude.{◌≡◌, ◌+◌, ◌<◌, ◌≤◌, ◌^◌, ◌++◌, ◌∷◌, length, IfOk, OnOk};
ghost use Rattle.view_text.specs.Folding.{ends_word, word_len, broken, breaks_at, folded, AreShort};

use pota_base::{Bytes, NoMemory};
use std::alloc::Global;

/// The most columns of a line.
const MOST_COLUMNS: usize = 100;

// Whether a word ends before the byte.
fn ends_word(byte: u8) -> bool
    ensures { result ≡ ends_word byte }
{
    byte == b' ' || byte == b'\n'
}

// How many bytes stand before the next space or line feed.
fn word_len(bytes: &[u8]) -> usize
    ensures count { result ≡ word_len bytes.now }
    ensures most { result ≤ length bytes.now }
{
    for i in 0..bytes.len() {
        if ends_word(bytes[i]) {
            return i;
        }
    }
    bytes.len()
}

// Whether a line is broken at this byte, behind so many columns.
#[tactic(auto, unfolding(crate::specs::Folding::breaks_at))]
fn breaks_at(column: usize, byte: u8, rest: &[u8]) -> bool
    requires { column ≤ 100 }
    ensures { result ≡ breaks_at column byte rest.now }
{
    byte == b' ' && column + 1 + word_len(rest) > MOST_COLUMNS
}

// Goes on with the next line.
fn put_break(out: &mut Bytes) -> Result<(), NoMemory>
    ensures { OnOk result (out.new ≡ out.old ++ broken) }
{
    out.extend_from_slice(b"\n        ")
}

// Appends a byte behind so many columns of a line, and a break where one is due. Gives the columns
// behind it.
fn put_byte(out: &mut Bytes, column: usize, byte: u8, rest: &[u8]) -> Result<usize, NoMemory>
    requires { column ≤ 100 }
    ensures text { IfOk result (λ next. out.new ++ folded next rest.now
        ≡ out.old ++ folded column (byte ∷ rest.now)) }
    ensures most { IfOk result (λ next. next ≤ 100) }
{
    if byte == b'\n' {
        out.push(byte)?;
        return Ok(0);
    }
    if breaks_at(column, byte, rest) {
        put_break(out)?;
        return Ok(8);
    }
    if column >= MOST_COLUMNS {
        put_break(out)?;
        out.push(byte)?;
        return Ok(9);
    }
    out.push(byte)?;
    Ok(column + 1)
}

/// The text with its long lines broken.
pub fn folded(alloc: Global, text: &[u8]) -> Result<Bytes, NoMemory>
    ensures folded { IfOk result (λ lines. lines ≡ folded 0 text.now) }
    ensures short { IfOk result (λ lines. AreShort 0 lines) }
{
    let mut out = Bytes::new(alloc);
    let mut column = 0usize;
    for i in 0..text.len() {
        column = put_byte(&mut out, column, text[i], &text[i + 1..])?;
    }
    Ok(out)
}
