//! Lines as they are read.

ghost use Rattle.std.specs.Prelude.{◌≡◌, ◌-◌, ◌^◌, IfSome, Some};
ghost use Rattle.pota_base.specs.Number.{number_at, seen};
ghost use Rattle.certificate_lines.specs.declared.line.Line.{Line};
ghost use Rattle.certificate_lines.specs.Spelling.{Spells};
ghost use Rattle.certificate_lines.specs.inside.Reading.{number_in, raise_in, after_in, row_in};
ghost use Rattle.certificate_lines.specs.inside.Reading.{node_in, verdict_in, line_in};

use crate::line::Line;
use log_lines::text_at;
use pota_base::number_at;

// The number of 32 bits at the front, and the bytes behind it.
fn number_at_front(bytes: &[u8]) -> Option<(u32, &[u8])>
    ensures { seen result ≡ number_at (2 ^ 32 - 1) bytes.now }
{
    let (number, rest) = number_at(u64::from(u32::MAX), bytes)?;
    Some((number as u32, rest))
}

// The number that is all of the bytes.
fn number_in(bytes: &[u8]) -> Option<u32>
    ensures { result ≡ number_in bytes.now }
{
    match number_at_front(bytes) {
        Some((number, [])) => Some(number),
        _ => None,
    }
}

// The raise that is told behind its word.
#[tactic(auto, unfolding(crate::specs::inside::Reading::raise_in))]
fn raise_in(bytes: &[u8]) -> Option<Line>
    ensures { result ≡ raise_in bytes.now }
{
    let (pull, rest) = number_at_front(bytes)?;
    let rest = text_at(b" ", rest)?;
    let value = number_in(rest)?;
    Some(Line::Raise(pull, value))
}

// The row behind an earlier one that is told behind its number.
#[tactic(auto, unfolding(crate::specs::inside::Reading::after_in))]
fn after_in(row: u32, bytes: &[u8]) -> Option<Line>
    ensures { result ≡ after_in row bytes.now }
{
    let rest = text_at(b" after ", bytes)?;
    let other = number_in(rest)?;
    Some(Line::Row(row, Some(other)))
}

// The row that is told behind its word.
#[tactic(auto, unfolding(crate::specs::inside::Reading::row_in))]
fn row_in(bytes: &[u8]) -> Option<Line>
    ensures { result ≡ row_in bytes.now }
{
    let (row, rest) = number_at_front(bytes)?;
    if rest.is_empty() {
        return Some(Line::Row(row, None));
    }
    after_in(row, rest)
}

// The node that is told behind its word.
#[tactic(auto, unfolding(crate::specs::inside::Reading::node_in))]
fn node_in(bytes: &[u8]) -> Option<Line>
    ensures { result ≡ node_in bytes.now }
{
    let number = number_in(bytes)?;
    Some(Line::Node(number))
}

// The verdict that the line tells.
fn verdict_in(line: &[u8]) -> Option<Line>
    ensures { result ≡ verdict_in line.now }
{
    if line == b"verdict true".as_slice() {
        return Some(Line::Verdict(true));
    }
    if line == b"verdict false".as_slice() {
        return Some(Line::Verdict(false));
    }
    None
}

// What the line says, by its first word.
#[tactic(auto, unfolding(crate::specs::inside::Reading::line_in))]
fn line_in(line: &[u8]) -> Option<Line>
    ensures { result ≡ line_in line.now }
{
    if let Some(rest) = text_at(b"raise ", line) {
        return raise_in(rest);
    }
    if let Some(rest) = text_at(b"row ", line) {
        return row_in(rest);
    }
    if let Some(rest) = text_at(b"node ", line) {
        return node_in(rest);
    }
    verdict_in(line)
}

/// What the line says, exactly where it is spelled so.
pub fn read_line(line: &[u8]) -> Option<Line>
    ensures read { IfSome result (Spells line.now) }
    ensures only { (said : Line) → Spells line.now said → result ≡ Some said }
{
    line_in(line)
}
