//! Columns of a row.
ghost use Rattle.std.specs.Prelude.{◌≡◌, ◌++◌, OnOk};
ghost use Rattle.view_text.specs.Text.{spaces, cell, to_the_right};

use pota_base::{Bytes, NoMemory};

/// Appends so many spaces.
pub fn put_spaces(out: &mut Bytes, count: usize) -> Result<(), NoMemory>
    ensures { OnOk result (out.new ≡ out.old ++ spaces count) }
{
    for i in 0..count {
        out.push(b' ')?;
    }
    Ok(())
}

/// Appends the text, with spaces behind it up to this width, and two more.
pub fn put_cell(out: &mut Bytes, width: usize, text: &[u8]) -> Result<(), NoMemory>
    ensures { OnOk result (out.new ≡ out.old ++ cell width text.now) }
{
    out.extend_from_slice(text)?;
    put_spaces(out, width.saturating_sub(text.len()))?;
    put_spaces(out, 2)
}

/// Appends the text, with spaces before it up to this width.
pub fn put_to_the_right(out: &mut Bytes, width: usize, text: &[u8]) -> Result<(), NoMemory>
    ensures { OnOk result (out.new ≡ out.old ++ to_the_right width text.now) }
{
    put_spaces(out, width.saturating_sub(text.len()))?;
    out.extend_from_slice(text)
}
