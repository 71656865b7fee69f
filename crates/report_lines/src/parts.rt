//! Numbers, cuts and events within a line.

ghost use Rattle.std.specs.Prelude.{◌≡◌, ◌≤◌, ◌<◌, length, IfOk, IfSome};
ghost use Rattle.pota_base.specs.Number.{seen};
ghost use Rattle.pota_base.specs.Limits.{most_processes};
ghost use Rattle.report_lines.specs.Reading.{positive_at, cut_at, within_at, event_at};

use cut_lattice::Cut;
use log_lines::{LineError, clock_at, place_of, spaced_name_at, text_at};
use pota_base::{EventId, NoMemory, number_at};
use pota_names::Name;
use std::alloc::Global;

/// The number from 1 on at the front, and the bytes behind it.
#[tactic(auto, unfolding(crate::specs::Reading::positive_at))]
pub fn positive_at(bytes: &[u8]) -> Option<(u32, &[u8])>
    ensures { seen result ≡ positive_at bytes.now }
{
    let (number, rest) = number_at(u64::from(u32::MAX), bytes)?;
    if number == 0 {
        return None;
    }
    Some((number as u32, rest))
}

// The cut of these counts.
fn cut_of(alloc: Global, counts: &[u32]) -> Result<Cut, NoMemory>
    requires { length counts.now ≤ most_processes }
    ensures { IfOk result (λ cut. cut ≡ counts.now) }
{
    let mut cut = Cut::new(alloc, counts.len() as u32)?;
    for i in 0..counts.len() {
        cut.set(i as u32, counts[i]);
    }
    Ok(cut)
}

/// The cut of so many processes at the front, and the bytes behind it.
#[tactic(auto, unfolding(crate::specs::Reading::cut_at))]
pub fn cut_at(alloc: Global, width: usize, bytes: &[u8]) -> Result<Option<(Cut, &[u8])>, NoMemory>
    requires { width ≤ most_processes }
    ensures found { IfOk result (λ found. seen found ≡ cut_at width bytes.now) }
    ensures width { IfOk result (λ found. IfSome found (λ x. length x.0 ≡ width)) }
{
    let (counts, rest) = match clock_at(alloc, bytes) {
        Ok(read) => read,
        Err(LineError::Malformed) => return Ok(None),
        Err(LineError::NoMemory) => return Err(NoMemory),
    };
    if counts.len() != width {
        return Ok(None);
    }
    Ok(Some((cut_of(alloc, &counts)?, rest)))
}

/// The cut within the lengths at the front, and the bytes behind it.
#[tactic(auto, unfolding(crate::specs::Reading::within_at))]
pub fn within_at<'a>(
    alloc: Global,
    lengths: &Cut,
    bytes: &'a [u8],
) -> Result<Option<(Cut, &'a [u8])>, NoMemory>
    requires { length lengths.now ≤ most_processes }
    ensures { IfOk result (λ found. seen found ≡ within_at lengths.now bytes.now) }
{
    let Some((cut, rest)) = cut_at(alloc, lengths.as_slice().len(), bytes)? else {
        return Ok(None);
    };
    if !cut.within(lengths) {
        return Ok(None);
    }
    Ok(Some((cut, rest)))
}

/// The event behind a space at the front, as the name of its process and its position, and the
/// bytes behind it.
#[tactic(auto, unfolding(crate::specs::Reading::event_at))]
pub fn event_at<'a>(procs: &[Name], lengths: &Cut, bytes: &'a [u8]) -> Option<(EventId, &'a [u8])>
    requires few { length procs.now ≤ most_processes }
    requires width { length lengths.now ≡ length procs.now }
    ensures { seen result ≡ event_at procs.now lengths.now bytes.now }
{
    let (name, rest) = spaced_name_at(bytes)?;
    let process = place_of(procs, name)? as u32;
    let rest = text_at(b" ", rest)?;
    let (position, rest) = positive_at(rest)?;
    if position > lengths.get(process) {
        return None;
    }
    Some((EventId { process, position }, rest))
}
