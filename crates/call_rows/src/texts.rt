//! The text of a made log, and the same with clocks left out.

use log_writing::write_log;
use pota_base::NoMemory;
use rand_core::utils::NextWord;
use rand_pcg::Pcg32;
use std::alloc::{AllocError, Global};
use trace_gen::generate;

/// The greatest share of the clocks that is left out, which is all of them.
pub const SHARES: u32 = 7;

// The text with a batch's end behind about each eighth event.
fn cut(alloc: Global, text: &str, words: &mut Pcg32) -> Result<String, AllocError> {
    let mut cut = String::new(alloc);
    for line in text.lines() {
        cut.push_str(line)?;
        cut.push('\n')?;
        if line.starts_with("ev ") && words.next_word() % 8 == 0 {
            cut.push_str("batch\n")?;
        }
    }
    Ok(cut)
}

/// The text of version 1 of the log that the seed makes, of 2 to 6 processes and 20 to 56 events.
/// An odd seed's events are one batch, those of an even one are cut into batches.
pub fn whole_text(alloc: Global, seed: u64, words: &mut Pcg32) -> Result<String, NoMemory> {
    let log = generate(alloc, seed, 2 + (seed % 5) as u32, 20 + (seed % 37) as u32)?;
    let text = write_log(alloc, &log)?;
    let text = String::from_utf8_lossy(alloc, text.as_slice())?;
    if seed % 2 == 1 {
        return Ok(text);
    }
    Ok(cut(alloc, text.as_str(), words)?)
}

// What stands before and behind the clock, none where the line has no event.
fn around_clock(line: &str) -> Option<(&str, &str)> {
    let (process, rest) = line.strip_prefix("ev ")?.split_once(' ')?;
    let (_, behind) = rest.split_once(' ')?;
    Some((process, behind))
}

/// The text of version 2 of the same log without so many sevenths of its clocks, which are drawn:
/// with all of them where the share is 0, with none where it is 7.
pub fn without_clocks(
    alloc: Global,
    whole: &str,
    share: u32,
    words: &mut Pcg32,
) -> Result<String, AllocError> {
    let mut text = String::from_str(alloc, "pota-log 2\n")?;
    for line in whole.lines().skip(1) {
        let line = match around_clock(line) {
            Some((process, behind)) if words.next_word() % SHARES < share => {
                format!(in alloc; "ev {process} ~ {behind}\n")?
            }
            _ => format!(in alloc; "{line}\n")?,
        };
        text.push_str(line.as_str())?;
    }
    Ok(text)
}
