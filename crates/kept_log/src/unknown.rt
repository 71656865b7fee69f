//! The words that name what a log does not have.
ghost use Rattle.std.specs.Prelude.{◌≡◌, ◌&&◌, map, string_bytes, IfOk};
ghost use Rattle.kept_log.specs.Unknown.{has_process, has_variable, has, is_unknown};
ghost use Rattle.kept_log.specs.Unknown.{unknown_word};

use crate::names::{process_number, variable_number, variables_at};
use event_log::{Header, Name};
use kept_names::{Named, Pair, named, waits_behind};
use pota_base::NoMemory;
use std::alloc::Global;

fn has_process(header: &Header, process: &Name) -> bool
    ensures { result ≡ has_process header.now process.now }
{
    process_number(header, process) < header.procs.len()
}

fn has_variable(header: &Header, variable: &Pair) -> bool
    ensures { result ≡ has_variable header.now variable.now }
{
    let process = process_number(header, &variable.first);
    variable_number(header, process, &variable.second) < variables_at(header, process).len()
}

fn has(header: &Header, named: &Named) -> bool
    ensures { result ≡ has header.now named.now }
{
    match named {
        Named::Variable(variable) => has_variable(header, variable),
        Named::Channel(channel) => {
            has_process(header, &channel.first) && has_process(header, &channel.second)
        }
        Named::Process(process) => has_process(header, process),
    }
}

// Whether the word names something that the log does not have, where it names something at all.
fn is_unknown(alloc: Global, header: &Header, names: bool, word: &[u8]) -> Result<bool, NoMemory>
    ensures { IfOk result (λ unknown. unknown ≡ (names && is_unknown header.now word.now)) }
{
    if !names {
        return Ok(false);
    }
    match named(alloc, word)? {
        Some(named) => Ok(!has(header, &named)),
        None => Ok(false),
    }
}

/// The place among the words, counted from 0, of the first one behind a `--keep` that names a
/// process or a variable that the log does not have.
pub fn unknown_word(
    alloc: Global,
    header: &Header,
    words: &[String],
) -> Result<Option<usize>, NoMemory>
    ensures { IfOk result (λ place. place
        ≡ unknown_word header.now (map string_bytes words.now)) }
{
    let mut waits = false;
    let mut place = 0;
    for word in words {
        let bytes = word.as_bytes();
        let unknown = is_unknown(alloc, header, waits, bytes)?;
        if unknown {
            return Ok(Some(place));
        }
        waits = waits_behind(waits, bytes);
        place += 1;
    }
    Ok(None)
}
