//! Lines as they are written.

ghost use Rattle.std.specs.Prelude.{◌≡◌, ◌++◌, ◌∷◌, [], OnOk};
ghost use Rattle.std.specs.Fmt.{decimal};
ghost use Rattle.certificate_lines.specs.Spelling.{line_text, lines_text, title, end_line};

use crate::line::Line;
use pota_base::{Bytes, NoMemory, put_u64};

// Appends a word and a number.
fn put_one(out: &mut Bytes, word: &[u8], number: u32) -> Result<(), NoMemory>
    ensures { OnOk result (out.new ≡ out.old ++ (word.now ++ decimal number)) }
{
    out.extend_from_slice(word)?;
    put_u64(out, u64::from(number))
}

// Appends a word, a number, what parts the two, and another number.
fn put_two(
    out: &mut Bytes,
    word: &[u8],
    number: u32,
    between: &[u8],
    other: u32,
) -> Result<(), NoMemory>
    ensures { OnOk result (out.new ≡ out.old
        ++ (word.now ++ (decimal number ++ (between.now ++ decimal other)))) }
{
    put_one(out, word, number)?;
    put_one(out, between, other)
}

// Appends what the line says, without its line feed.
fn put_text(out: &mut Bytes, line: Line) -> Result<(), NoMemory>
    ensures { OnOk result (out.new ≡ out.old ++ line_text line) }
{
    match line {
        Line::Node(number) => put_one(out, b"node ", number),
        Line::Row(row, None) => put_one(out, b"row ", row),
        Line::Row(row, Some(other)) => put_two(out, b"row ", row, b" after ", other),
        Line::Raise(pull, value) => put_two(out, b"raise ", pull, b" ", value),
        Line::Verdict(true) => out.extend_from_slice(b"verdict true"),
        Line::Verdict(false) => out.extend_from_slice(b"verdict false"),
    }
}

/// Appends the line of a node, a row, a raise or the verdict.
pub fn put_line(out: &mut Bytes, line: Line) -> Result<(), NoMemory>
    ensures { OnOk result (out.new ≡ out.old ++ lines_text (line_text line ∷ [])) }
{
    put_text(out, line)?;
    out.push(b'\n')
}

// Appends the first line.
fn put_title(out: &mut Bytes) -> Result<(), NoMemory>
    ensures { OnOk result (out.new ≡ out.old ++ lines_text (title ∷ [])) }
{
    out.extend_from_slice(b"pota-cert 1\n")
}

// Appends the formula's line.
fn put_formula(out: &mut Bytes, formula: &[u8]) -> Result<(), NoMemory>
    ensures { OnOk result (out.new ≡ out.old ++ lines_text (formula.now ∷ [])) }
{
    out.extend_from_slice(formula)?;
    out.push(b'\n')
}

/// Appends the two lines before those of the nodes, the second of which is the formula's.
pub fn put_head(out: &mut Bytes, formula: &[u8]) -> Result<(), NoMemory>
    ensures { OnOk result (out.new ≡ out.old ++ lines_text (title ∷ formula.now ∷ [])) }
{
    put_title(out)?;
    put_formula(out, formula)
}

/// Appends the last line.
pub fn put_end(out: &mut Bytes) -> Result<(), NoMemory>
    ensures { OnOk result (out.new ≡ out.old ++ lines_text (end_line ∷ [])) }
{
    out.extend_from_slice(b"end\n")
}
