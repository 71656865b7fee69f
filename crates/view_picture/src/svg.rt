//! Elements of an SVG image.
ghost use Rattle.std.specs.Prelude.{◌≡◌, ◌++◌, slice_index, OnOk};
ghost use Rattle.view_picture.specs.Svg.{attribute, line, circle, text, escape, escaped};

use pota_base::{Bytes, NoMemory, put_u64};

/// A point of the picture, from its upper left corner.
#[derive(Clone, Copy, Debug, PartialEq, Eq)]
pub struct Point {
    pub x: u64,
    pub y: u64,
}

/// Appends ` NAME='VALUE'`.
pub fn put_attribute(out: &mut Bytes, name: &[u8], value: u64) -> Result<(), NoMemory>
    ensures { OnOk result (out.new ≡ out.old ++ attribute name.now value) }
{
    out.push(b' ')?;
    out.extend_from_slice(name)?;
    out.extend_from_slice(b"='")?;
    put_u64(out, value)?;
    out.push(b'\'')
}

/// Appends a straight line with this look.
pub fn put_line(out: &mut Bytes, from: Point, to: Point, look: &[u8]) -> Result<(), NoMemory>
    ensures { OnOk result (out.new ≡ out.old ++ line from to look.now) }
{
    out.extend_from_slice(b"<line")?;
    put_attribute(out, b"x1", from.x)?;
    put_attribute(out, b"y1", from.y)?;
    put_attribute(out, b"x2", to.x)?;
    put_attribute(out, b"y2", to.y)?;
    out.extend_from_slice(look)?;
    out.extend_from_slice(b"/>\n")
}

/// Appends a circle with this look.
pub fn put_circle(out: &mut Bytes, at: Point, radius: u64, look: &[u8]) -> Result<(), NoMemory>
    ensures { OnOk result (out.new ≡ out.old ++ circle at radius look.now) }
{
    out.extend_from_slice(b"<circle")?;
    put_attribute(out, b"cx", at.x)?;
    put_attribute(out, b"cy", at.y)?;
    put_attribute(out, b"r", radius)?;
    out.extend_from_slice(look)?;
    out.extend_from_slice(b"/>\n")
}

/// Appends a text with this look, which has no markup in it.
pub fn put_text(out: &mut Bytes, at: Point, look: &[u8], shown: &[u8]) -> Result<(), NoMemory>
    ensures { OnOk result (out.new ≡ out.old ++ text at look.now shown.now) }
{
    out.extend_from_slice(b"<text")?;
    put_attribute(out, b"x", at.x)?;
    put_attribute(out, b"y", at.y)?;
    out.extend_from_slice(look)?;
    out.extend_from_slice(b">")?;
    out.extend_from_slice(shown)?;
    out.extend_from_slice(b"</text>\n")
}

// Appends what stands for a byte.
fn put_escape(out: &mut Bytes, byte: u8) -> Result<(), NoMemory>
    ensures { OnOk result (out.new ≡ out.old ++ escape byte) }
{
    match byte {
        b'&' => out.extend_from_slice(b"&amp;"),
        b'<' => out.extend_from_slice(b"&lt;"),
        b'>' => out.extend_from_slice(b"&gt;"),
        _ => out.push(byte),
    }
}

/// Appends the text with `&`, `<` and `>` escaped.
pub fn put_escaped(out: &mut Bytes, bytes: &[u8]) -> Result<(), NoMemory>
    ensures { OnOk result (out.new ≡ out.old ++ escaped bytes.now) }
{
    for byte in bytes {
        put_escape(out, *byte)?;
    }
    Ok(())
}
