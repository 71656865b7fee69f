//! The lines of witnesses.

ghost use Rattle.std.specs.Prelude.{◌≡◌, ◌≤◌, length, IfOk};
ghost use Rattle.pota_base.specs.Limits.{most_processes};
ghost use Rattle.report_lines.specs.Reading.{goal_in, pair_in, plain_in, kind_in, numbers_seen};
ghost use Rattle.report_lines.specs.Reading.{numbers_at, witness_in};

use crate::kinds::WitnessText;
use crate::parts::{event_at, positive_at, within_at};
use cut_lattice::Cut;
use log_lines::text_at;
use pota_base::{List, NoMemory};
use pota_names::Name;
use std::alloc::Global;
use witness_kinds::{Path, Witness};

// The path to the goal that is all of the bytes, without its steps.
fn goal_in(alloc: Global, lengths: &Cut, bytes: &[u8]) -> Result<Option<Path>, NoMemory>
    requires { length lengths.now ≤ most_processes }
    ensures { IfOk result (λ path. path ≡ goal_in lengths.now bytes.now) }
{
    match within_at(alloc, lengths, bytes)? {
        Some((goal, [])) => Ok(Some(Path {
            goal,
            steps: List::new(alloc),
        })),
        _ => Ok(None),
    }
}

// Two events that are all of the bytes.
fn pair_in(procs: &[Name], lengths: &Cut, bytes: &[u8]) -> Option<Witness>
    requires few { length procs.now ≤ most_processes }
    requires width { length lengths.now ≡ length procs.now }
    ensures { result ≡ pair_in procs.now lengths.now bytes.now }
{
    let (first, rest) = event_at(procs, lengths, bytes)?;
    let (other, rest) = event_at(procs, lengths, rest)?;
    if !rest.is_empty() {
        return None;
    }
    Some(Witness::StuckPair(first, other))
}

// The kinds that are words alone.
fn plain_in(bytes: &[u8]) -> Option<Witness>
    ensures { result ≡ plain_in bytes.now }
{
    if bytes == b"none".as_slice() {
        return Some(Witness::Nothing);
    }
    if bytes == b"stuck start".as_slice() {
        return Some(Witness::StuckStart);
    }
    if bytes == b"stuck finish".as_slice() {
        return Some(Witness::StuckFinish);
    }
    None
}

// What is told behind the numbers of a witness.
#[tactic(auto, unfolding(crate::specs::Reading::kind_in))]
fn kind_in(
    alloc: Global,
    procs: &[Name],
    lengths: &Cut,
    bytes: &[u8],
) -> Result<Option<Witness>, NoMemory>
    requires few { length procs.now ≤ most_processes }
    requires width { length lengths.now ≡ length procs.now }
    ensures { IfOk result (λ kind. kind ≡ kind_in procs.now lengths.now bytes.now) }
{
    if let Some(rest) = text_at(b"reach ", bytes) {
        return Ok(goal_in(alloc, lengths, rest)?.map(Witness::Reach));
    }
    if let Some(rest) = text_at(b"against ", bytes) {
        return Ok(goal_in(alloc, lengths, rest)?.map(Witness::Against));
    }
    if let Some(rest) = text_at(b"always ", bytes) {
        return Ok(goal_in(alloc, lengths, rest)?.map(Witness::Always));
    }
    if let Some(rest) = text_at(b"stuck pair", bytes) {
        return Ok(pair_in(procs, lengths, rest));
    }
    Ok(plain_in(bytes))
}

// `witness NAT.NAT ` at the front, and the bytes behind it.
#[tactic(auto, unfolding(crate::specs::Reading::numbers_at))]
fn numbers_at(line: &[u8]) -> Option<(u32, u32, &[u8])>
    ensures { numbers_seen result ≡ numbers_at line.now }
{
    let rest = text_at(b"witness ", line)?;
    let (disjunct, rest) = positive_at(rest)?;
    let rest = text_at(b".", rest)?;
    let (part, rest) = positive_at(rest)?;
    let rest = text_at(b" ", rest)?;
    Some((disjunct, part, rest))
}

/// The witness that the line spells, where the steps of a path have lines of their own.
#[tactic(auto, unfolding(crate::specs::Reading::witness_in))]
pub fn read_witness(
    alloc: Global,
    procs: &[Name],
    lengths: &Cut,
    line: &[u8],
) -> Result<Option<WitnessText>, NoMemory>
    requires few { length procs.now ≤ most_processes }
    requires width { length lengths.now ≡ length procs.now }
    ensures { IfOk result (λ witness. witness ≡ witness_in procs.now lengths.now line.now) }
{
    let Some((disjunct, part, rest)) = numbers_at(line) else {
        return Ok(None);
    };
    let kind = kind_in(alloc, procs, lengths, rest)?;
    Ok(kind.map(|witness| WitnessText {
        disjunct,
        part,
        witness,
    }))
}
