//! The lines before slice and witnesses.

ghost use Rattle.std.specs.Prelude.{◌≡◌, ◌≤◌, IfOk, length, sum, if◌then◌else◌};
ghost use Rattle.std.specs.Str.{bytes_eq};
ghost use Rattle.pota_base.specs.Limits.{longest_canonical, most_processes};
ghost use Rattle.rctl_grammar.specs.Shape.{shape_of};
ghost use Rattle.rctl_print.specs.Canonical.{canonical};
ghost use Rattle.report_lines.specs.Formula.{is_canonical};
ghost use Rattle.report_lines.specs.Reading.{is_title, batch_in, lengths_in, formula_in};
ghost use Rattle.report_lines.specs.Reading.{verdict_in};

use crate::parts::{cut_at, positive_at};
use cut_lattice::Cut;
use log_lines::text_at;
use pota_base::{Bytes, LONGEST_CANONICAL, MOST_EVENTS, NoMemory, Refused};
use rctl_grammar::Formula;
use rctl_round_trip::{parse_long, print};
use std::alloc::Global;

/// Whether the line is the first one of a report.
pub fn is_title(line: &[u8]) -> bool
    ensures { result ≡ is_title line.now }
{
    line == b"pota-report 1".as_slice()
}

/// The number of batches that the line spells.
#[tactic(auto, unfolding(crate::specs::Reading::batch_in))]
pub fn read_batch(line: &[u8]) -> Option<u32>
    ensures { result ≡ batch_in line.now }
{
    let rest = text_at(b"batch ", line)?;
    let (batch, rest) = positive_at(rest)?;
    if !rest.is_empty() {
        return None;
    }
    Some(batch)
}

// The sum of counts of 32 bits.
fn total(counts: &[u32]) -> u64
    requires { length counts.now ≤ most_processes }
    ensures { result ≡ sum counts.now }
{
    let mut all = 0u64;
    for count in counts {
        all += u64::from(*count);
    }
    all
}

/// The lengths of so many processes that the line spells, at most 50,000 events in all.
#[tactic(auto, unfolding(crate::specs::Reading::lengths_in))]
pub fn read_lengths(alloc: Global, procs: usize, line: &[u8]) -> Result<Option<Cut>, NoMemory>
    requires { procs ≤ most_processes }
    ensures { IfOk result (λ lengths. lengths ≡ lengths_in procs line.now) }
{
    let Some(rest) = text_at(b"lengths ", line) else {
        return Ok(None);
    };
    match cut_at(alloc, procs, rest)? {
        Some((lengths, [])) if total(lengths.as_slice()) <= MOST_EVENTS as u64 => Ok(Some(lengths)),
        _ => Ok(None),
    }
}

// The text, where it is that of the formula.
fn text_of(alloc: Global, formula: &Formula, text: &[u8]) -> Result<Option<Bytes>, NoMemory>
    ensures { IfOk result (λ found. found
        ≡ (if bytes_eq (canonical (shape_of formula.now.tree)) text.now then Some text.now
        else None)) }
{
    let printed = print(alloc, formula)?;
    if printed.as_slice() == text {
        return Ok(Some(printed));
    }
    Ok(None)
}

// The text, where it is canonical.
fn canonical_of(alloc: Global, text: &[u8]) -> Result<Option<Bytes>, NoMemory>
    requires { length text.now ≤ longest_canonical }
    ensures { IfOk result (λ found.
        found ≡ (if is_canonical text.now then Some text.now else None)) }
{
    match parse_long(alloc, text) {
        Ok(formula) => {
            let found = text_of(alloc, &formula, text);
            drop(formula);
            found
        }
        Err(Refused::Fault(_)) => Ok(None),
        Err(Refused::NoMemory) => Err(NoMemory),
    }
}

/// The canonical text of a formula that the line spells. It may be longer than the longest formula
/// that is read elsewhere.
#[tactic(auto, unfolding(crate::specs::Reading::formula_in))]
pub fn read_formula(alloc: Global, line: &[u8]) -> Result<Option<Bytes>, NoMemory>
    ensures { IfOk result (λ text. text ≡ formula_in line.now) }
{
    let Some(text) = text_at(b"formula ", line) else {
        return Ok(None);
    };
    if text.len() > LONGEST_CANONICAL {
        return Ok(None);
    }
    canonical_of(alloc, text)
}

/// The verdict that the line spells.
#[tactic(auto, unfolding(crate::specs::Reading::verdict_in))]
pub fn read_verdict(line: &[u8]) -> Option<bool>
    ensures { result ≡ verdict_in line.now }
{
    let text = text_at(b"verdict ", line)?;
    if text == b"true".as_slice() {
        return Some(true);
    }
    if text == b"false".as_slice() {
        return Some(false);
    }
    None
}
