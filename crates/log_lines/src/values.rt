//! Lists at the end of a line, and clocks.

ghost use Rattle.std.specs.Prelude.{◌≡◌, ◌^◌, ◌<◌, ◌≤◌, [], ◌∷◌, length, map};
ghost use Rattle.log_lines.specs.Reading.{value_at, names_from, values_from, values_at, clock_from};
ghost use Rattle.log_lines.specs.Reading.{clock_at, event_clock_at};
ghost use Rattle.log_lines.specs.Drafts.{Gives, value_of, values_of, texts_of};
ghost use Rattle.log_lines.specs.inside.Drafts.{value_seen};

use crate::counts::count_at;
use crate::draft::{LineError, Setting, Settings};
use crate::words::{are_distinct, spaced_name_at, text_at};
use pota_base::{MOST_VARIABLES, signed_at};
use std::alloc::Global;

/// ` NAME=INT` at the front, and the bytes after it.
#[tactic(auto, unfolding(crate::specs::Reading::value_at))]
pub fn value_at(bytes: &[u8]) -> Option<(Setting<'_>, &[u8])>
    ensures { value_seen result ≡ value_at bytes.now }
{
    let (name, rest) = spaced_name_at(bytes)?;
    let rest = text_at(b"=", rest)?;
    let (value, rest) = signed_at(rest)?;
    Some((Setting { name, value }, rest))
}

/// The names to the end of the line, at most `most`.
pub fn names_from(alloc: Global, most: usize, bytes: &[u8]) -> Result<Vec<&[u8]>, LineError>
    ensures { Gives (λ names. texts_of names.items) result (names_from most [] bytes.now) }
{
    let mut names = Vec::new(alloc);
    let mut rest = bytes;
    for _ in 0..most {
        if rest.is_empty() {
            return Ok(names);
        }
        let (name, after) = spaced_name_at(rest).ok_or(LineError::Malformed)?;
        names.push(name)?;
        rest = after;
    }
    if !rest.is_empty() {
        return Err(LineError::Malformed);
    }
    Ok(names)
}

fn values_from(alloc: Global, most: usize, bytes: &[u8]) -> Result<Settings<'_>, LineError>
    ensures { Gives (λ values. values_of values.items) result (values_from most [] bytes.now) }
{
    let mut values = Settings::new(alloc);
    let mut rest = bytes;
    for _ in 0..most {
        if rest.is_empty() {
            return Ok(values);
        }
        let (value, after) = value_at(rest).ok_or(LineError::Malformed)?;
        values.push(value)?;
        rest = after;
    }
    if !rest.is_empty() {
        return Err(LineError::Malformed);
    }
    Ok(values)
}

/// The values to the end of the line, at most 16 and of distinct variables.
#[tactic(auto, using(crate::proofs::Steps::value_names), unfolding(crate::specs::Reading::values_at))]
pub fn values_at(alloc: Global, bytes: &[u8]) -> Result<Settings<'_>, LineError>
    ensures { Gives (λ values. values_of values.items) result (values_at bytes.now) }
{
    let values = values_from(alloc, MOST_VARIABLES, bytes)?;
    if !are_distinct(values.as_slice()) {
        return Err(LineError::Malformed);
    }
    Ok(values)
}

// The memory for `width` counts is taken at once.
fn clock_from(
    alloc: Global,
    width: usize,
    first: u32,
    bytes: &[u8],
) -> Result<(Vec<u32>, &[u8]), LineError>
    ensures { Gives (λ x. (x.0.items, x.1.now)) result
        (clock_from (length bytes.now) (first ∷ []) bytes.now) }
{
    let mut clock = Vec::with_capacity(alloc, width)?;
    clock.push(first)?;
    let mut rest = bytes;
    while let Some(behind) = text_at(b",", rest) {
        let (number, after) = count_at(behind).ok_or(LineError::Malformed)?;
        clock.push(number)?;
        rest = after;
    }
    Ok((clock, rest))
}

/// The counts of a clock or a cut at the front, and the bytes after the last one.
#[tactic(auto, unfolding(crate::specs::Reading::clock_at))]
pub fn clock_at(alloc: Global, bytes: &[u8]) -> Result<(Vec<u32>, &[u8]), LineError>
    ensures { Gives (λ x. (x.0.items, x.1.now)) result (clock_at bytes.now) }
{
    let (first, rest) = count_at(bytes).ok_or(LineError::Malformed)?;
    clock_from(alloc, 0, first, rest)
}

/// The clock of an event at the front, and the bytes behind it. It has no counts where it is left
/// out, which is written `~`. The memory for `width` counts is taken at once.
pub(crate) fn event_clock_at(
    alloc: Global,
    width: usize,
    bytes: &[u8],
) -> Result<(Vec<u32>, &[u8]), LineError>
    ensures { Gives (λ x. (x.0.items, x.1.now)) result (event_clock_at bytes.now) }
{
    let Some((first, rest)) = count_at(bytes) else {
        let rest = text_at(b"~", bytes).ok_or(LineError::Malformed)?;
        return Ok((Vec::new(alloc), rest));
    };
    clock_from(alloc, width, first, rest)
}
