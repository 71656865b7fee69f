//! The numbers among the values.
ghost use Rattle.std.specs.Prelude.{◌≡◌, ◌≤◌, ◌^◌, ◌-◌, ◌<◌, IfSome};
ghost use Rattle.pota_base.specs.Number.{number_at, whole};
ghost use Rattle.command_words.specs.Numbers.{number, workers_of, needed, sizes_of};
ghost use Rattle.command_words.specs.inside.Seen.{text_seen};

use call_options::Sizes;
use pota_base::{MOST_EVENTS, MOST_PROCESSES, MOST_WORKERS, read_u64};

// The number that the text spells.
fn whole_number(text: &str) -> Option<u64>
    ensures { result ≡ whole (number_at (2 ^ 64 - 1) text.now) }
{
    read_u64(text.as_bytes())
}

// The number that the text spells, where it is in the range.
fn number(text: &str, low: u64, high: u64) -> Option<u64>
    ensures exact { result ≡ number low high text.now }
    ensures within { IfSome result (λ n. n ≤ high) }
{
    let number = whole_number(text)?;
    if low <= number && number <= high {
        Some(number)
    } else {
        None
    }
}

fn small_number(text: &str, low: u32, high: u32) -> Option<u32>
    ensures { result ≡ number low high text.now }
{
    let number = number(text, u64::from(low), u64::from(high))?;
    Some(number as u32)
}

/// The number of workers, 1 where none is given.
pub fn workers(text: Option<&str>) -> Option<u32>
    ensures { result ≡ workers_of (text_seen text.entry) }
{
    match text {
        None => Some(1),
        Some(text) => small_number(text, 1, MOST_WORKERS),
    }
}

/// The sizes of the log that `bench` makes, where all three are given and in their ranges.
pub fn sizes(seed: Option<&str>, procs: Option<&str>, events: Option<&str>) -> Option<Sizes>
    ensures { result
        ≡ sizes_of (text_seen seed.entry) (text_seen procs.entry) (text_seen events.entry) }
{
    let seed = number(seed?, 0, u64::MAX)?;
    let procs = small_number(procs?, 1, MOST_PROCESSES as u32)?;
    let events = small_number(events?, 0, MOST_EVENTS as u32)?;
    Some(Sizes {
        seed,
        procs,
        events,
    })
}
