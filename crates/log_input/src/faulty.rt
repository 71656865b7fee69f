//! The text of the line that a fault is at.
ghost use Rattle.std.specs.Prelude.{◌≡◌, IfOk};
ghost use Rattle.log_input.specs.FaultyLine.{line_at, line_number, shown_line};

use fault_kinds::Refusal;
use pota_base::{Bytes, List, NoMemory};
use std::alloc::Global;

/// The most bytes of a line that are shown.
pub const LONGEST_SHOWN_LINE: usize = 120;

// The line that a fault is at, counted from 1, or 0 where it is told at no line of these bytes.
fn line_number(refusal: Refusal) -> u32
    ensures { result ≡ line_number refusal }
{
    match refusal {
        Refusal::Log(fault) => fault.line,
        Refusal::Import(fault) => fault.line,
        Refusal::Formula(_) => 0,
        Refusal::Merge(_) => 0,
    }
}

// The line of this number without its line feed, empty where there is none.
fn line_at(number: u32, bytes: &[u8]) -> &[u8]
    ensures { result.now ≡ line_at number bytes.now }
{
    let Some(before) = number.checked_sub(1) else {
        return b"".as_slice();
    };
    let mut lines = bytes.split(|byte| *byte == b'\n');
    lines.nth(before as usize).unwrap_or_default()
}

/// What is shown of the line of a fault in these bytes.
pub fn shown_line(alloc: Global, refusal: Refusal, bytes: &[u8]) -> Result<Bytes, NoMemory>
    ensures { IfOk result (λ text. text ≡ shown_line refusal bytes.now) }
{
    let line = line_at(line_number(refusal), bytes);
    let mut text = List::new(alloc);
    text.extend_from_slice(&line[..LONGEST_SHOWN_LINE.min(line.len())])?;
    Ok(text)
}
