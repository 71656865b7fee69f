//! Texts that stand behind two spaces.
ghost use Rattle.ask_text.specs.Indented.{indent, indented};
ghost use Rattle.std.specs.Prelude.{◌≡◌, ◌++◌, ◌∷◌, [], OnOk};

use pota_base::{Bytes, NoMemory};

// Appends the byte, behind two spaces where it begins a line.
fn put_byte(out: &mut Bytes, begins: bool, byte: u8) -> Result<(), NoMemory>
    ensures { OnOk result (out.new ≡ out.old ++ indent begins ++ byte ∷ []) }
{
    if begins {
        out.extend_from_slice(b"  ")?;
    }
    out.push(byte)
}

/// Appends the text with two spaces before each of its lines.
pub fn put_indented(out: &mut Bytes, text: &[u8]) -> Result<(), NoMemory>
    ensures { OnOk result (out.new ≡ out.old ++ indented text.now) }
{
    let mut begins = true;
    for i in 0..text.len() {
        put_byte(out, begins, text[i])?;
        begins = text[i] == b'\n';
    }
    Ok(())
}
