//! The heading of the picture.
ghost use Rattle.std.specs.Prelude.{◌≡◌, ◌++◌, OnOk};
ghost use Rattle.report_lines.specs.Spelling.{truth_text};
ghost use Rattle.view_picture.specs.Picture.{size, box_text, opening, arrow_head, lost_head};
ghost use Rattle.view_picture.specs.Picture.{arrow_heads, verdict_drawn, formula_drawn, heading};

use crate::frame::Frame;
use crate::svg::{Point, put_attribute, put_escaped, put_text};
use pota_base::{Bytes, NoMemory, put_u64};
use report::Report;
use std::alloc::Global;

// Appends the width and the height.
fn put_size(out: &mut Bytes, frame: &Frame) -> Result<(), NoMemory>
    ensures { OnOk result (out.new ≡ out.old ++ size frame.now) }
{
    put_attribute(out, b"width", frame.width)?;
    put_attribute(out, b"height", frame.height)
}

// Appends ` viewBox='0 0 WIDTH HEIGHT'`.
fn put_box(out: &mut Bytes, frame: &Frame) -> Result<(), NoMemory>
    ensures { OnOk result (out.new ≡ out.old ++ box_text frame.now) }
{
    out.extend_from_slice(b" viewBox='0 0 ")?;
    put_u64(out, frame.width)?;
    out.push(b' ')?;
    put_u64(out, frame.height)?;
    out.push(b'\'')
}

// Appends the tag that opens the image, and the white behind it.
fn put_opening(out: &mut Bytes, frame: &Frame) -> Result<(), NoMemory>
    ensures { OnOk result (out.new ≡ out.old ++ opening frame.now) }
{
    out.extend_from_slice(b"<svg xmlns='http://www.w3.org/2000/svg' version='1.1'")?;
    put_size(out, frame)?;
    put_box(out, frame)?;
    out.extend_from_slice(
        b" font-family='sans-serif' font-size='12' paint-order='stroke' stroke-linejoin='round'",
    )?;
    out.extend_from_slice(b">\n<rect")?;
    put_size(out, frame)?;
    out.extend_from_slice(b" fill='#ffffff'/>\n")
}

// Appends the head of an arrow of this name and color, whose tip is at the white ring of a
// mark.
fn put_arrow_head(out: &mut Bytes, name: &[u8], color: &[u8]) -> Result<(), NoMemory>
    ensures { OnOk result (out.new ≡ out.old ++ arrow_head name.now color.now) }
{
    out.extend_from_slice(b"<marker id='")?;
    out.extend_from_slice(name)?;
    out.extend_from_slice(
        b"' viewBox='0 0 20 8' refX='23' refY='4' markerWidth='20' markerHeight='8'",
    )?;
    out.extend_from_slice(
        b" markerUnits='userSpaceOnUse' orient='auto'><path d='M0 0 L8 4 L0 8 z' fill='",
    )?;
    out.extend_from_slice(color)?;
    out.extend_from_slice(b"'/></marker>\n")
}

// Appends the open head and the cross of a message that is not received.
fn put_lost_head(out: &mut Bytes) -> Result<(), NoMemory>
    ensures { OnOk result (out.new ≡ out.old ++ lost_head) }
{
    out.extend_from_slice(
        b"<marker id='lost' viewBox='0 0 18 10' refX='13' refY='5' markerWidth='18'",
    )?;
    out.extend_from_slice(b" markerHeight='10' markerUnits='userSpaceOnUse' orient='auto'>")?;
    out.extend_from_slice(
        b"<path d='M0 1 L6 5 L0 9 M9 1 L17 9 M9 9 L17 1' fill='none' stroke='#555555'",
    )?;
    out.extend_from_slice(b" stroke-width='1.5'/></marker>\n")
}

fn put_arrow_heads(out: &mut Bytes) -> Result<(), NoMemory>
    ensures { OnOk result (out.new ≡ out.old ++ arrow_heads) }
{
    out.extend_from_slice(b"<defs>\n")?;
    put_arrow_head(out, b"message", b"#555555")?;
    put_lost_head(out)?;
    put_arrow_head(out, b"edge", b"#7a3db8")?;
    out.extend_from_slice(b"</defs>\n")
}

fn truth_text(verdict: bool) -> &'static [u8]
    ensures { result.now ≡ truth_text verdict }
{
    if verdict {
        return b"true";
    }
    b"false"
}

// Appends the verdict.
fn put_verdict(out: &mut Bytes, verdict: bool) -> Result<(), NoMemory>
    ensures { OnOk result (out.new ≡ out.old ++ verdict_drawn verdict) }
{
    put_text(
        out,
        Point { x: 20, y: 34 },
        b" font-size='20'",
        truth_text(verdict),
    )
}

// Appends the formula.
fn put_formula(out: &mut Bytes, alloc: Global, formula: &[u8]) -> Result<(), NoMemory>
    ensures { OnOk result (out.new ≡ out.old ++ formula_drawn formula.now) }
{
    let mut shown = Bytes::new(alloc);
    put_escaped(&mut shown, formula)?;
    put_text(
        out,
        Point { x: 20, y: 60 },
        b" font-size='14' font-family='monospace'",
        shown.as_slice(),
    )
}

/// Appends what stands before the lanes: the size of the picture, the verdict and the formula.
pub fn put_heading(
    out: &mut Bytes,
    alloc: Global,
    frame: &Frame,
    report: &Report,
) -> Result<(), NoMemory>
    ensures { OnOk result (out.new ≡ out.old ++ heading frame.now report.now) }
{
    put_opening(out, frame)?;
    put_arrow_heads(out)?;
    put_verdict(out, report.verdict)?;
    put_formula(out, alloc, report.formula.as_slice())
}
