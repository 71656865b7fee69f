//! An atom, read from a line, and its pulls.
ghost use Rattle.std.specs.Prelude.{◌<◌, length};

use channel_preds::{at_least, at_most, counts};
use event_log::States;
use local_preds::{constant_pulls, pulls_of, truth_row};
use pota_base::{List, NoMemory};
use pull_system::Pull;
use rctl_grammar::Compare;
use rctl_parts::{LocalExpr, LocalSide};
use std::alloc::{AllocError, Global};

/// The largest bound on a channel.
const MOST: u64 = 1 << 63;

// What a call gave, or want of memory.
fn made<T>(answer: Result<T, NoMemory>) -> Result<T, AllocError> {
    match answer {
        Ok(value) => Ok(value),
        Err(_) => Err(AllocError),
    }
}

// The first word of a line, and what is behind it.
fn parted(line: &str) -> (&str, &str) {
    line.split_once(' ').unwrap_or((line, ""))
}

// A number at the front of a line, and what is behind it.
fn number_at(line: &str) -> Option<(u32, &str)> {
    let (word, rest) = parted(line);
    match word.parse::<u32>() {
        Ok(number) => Some((number, rest)),
        Err(_) => None,
    }
}

fn compare_of(word: &str) -> Option<Compare> {
    match word {
        "=" => Some(Compare::Eq),
        "!=" => Some(Compare::Ne),
        "<" => Some(Compare::Lt),
        "<=" => Some(Compare::Le),
        ">" => Some(Compare::Gt),
        ">=" => Some(Compare::Ge),
        _ => None,
    }
}

// `SENDER RECEIVER K`, at most or at least.
fn channel_pulls(
    alloc: Global,
    states: &States,
    line: &str,
    is_least: bool,
) -> Result<Option<List<Pull>>, NoMemory> {
    let Some((sender, rest)) = number_at(line) else {
        return Ok(None);
    };
    let Some((receiver, bound)) = number_at(rest) else {
        return Ok(None);
    };
    let Ok(k) = bound.parse::<u64>() else {
        return Ok(None);
    };
    let procs = states.shape().procs();
    if sender >= procs || receiver >= procs || k > MOST {
        return Ok(None);
    }
    let channel = counts(alloc, states, sender, receiver)?;
    if is_least {
        Ok(Some(at_least(alloc, &channel, k)?))
    } else {
        Ok(Some(at_most(alloc, &channel, k)?))
    }
}

// `PROCESS VARIABLE RELATION NUMBER`
fn comparison_pulls(
    alloc: Global,
    states: &States,
    line: &str,
) -> Result<Option<List<Pull>>, NoMemory> {
    let Some((process, rest)) = number_at(line) else {
        return Ok(None);
    };
    let Some((left, rest)) = number_at(rest) else {
        return Ok(None);
    };
    let (relation, number) = parted(rest);
    let (Some(compare), Ok(number)) = (compare_of(relation), number.parse::<i64>()) else {
        return Ok(None);
    };
    let header = states.header();
    if process as usize >= header.vars.len() || process >= states.shape().procs() {
        return Ok(None);
    }
    if left as usize >= header.vars.get(process as usize).len() {
        return Ok(None);
    }
    let expr = LocalExpr::Compare {
        left,
        compare,
        side: LocalSide::Number(number),
    };
    let no_watches = List::new(alloc);
    let row = truth_row(alloc, &expr, states, process, &no_watches)?;
    Ok(Some(pulls_of(alloc, states.shape(), process, row.as_slice())?))
}

/// The pulls of an atom of the run, `None` where the line is none.
pub fn pulls_of_line(
    alloc: Global,
    states: &States,
    line: &str,
) -> Result<Option<List<Pull>>, AllocError> {
    let (word, rest) = parted(line);
    match word {
        "at-most" => made(channel_pulls(alloc, states, rest, false)),
        "at-least" => made(channel_pulls(alloc, states, rest, true)),
        "compare" => made(comparison_pulls(alloc, states, rest)),
        "constant" => {
            let pulls = made(constant_pulls(alloc, states.shape(), rest == "true"))?;
            Ok(Some(pulls))
        }
        _ => Ok(None),
    }
}
