//! Reading the lines of a case.

use crate::slice_case::{Case, Operator, Part, Wanted, Why};
use event_log::{Event, Kind};
use pota_base::{EventId, List};
use pull_system::Pull;
use slice_graph::Edge;
use std::alloc::{AllocError, Global};
use witness::Explained;

// The numbers of a text, up to the first word that is none.
fn numbers_in(alloc: Global, text: &str) -> Result<Vec<u32>, AllocError> {
    let mut numbers = Vec::new(alloc);
    for word in text.split(',') {
        match word.parse::<u32>() {
            Ok(number) => numbers.push(number)?,
            Err(_) => return Ok(numbers),
        }
    }
    Ok(numbers)
}

fn add_event(
    alloc: Global,
    case: &mut Case,
    process: u32,
    clock: Vec<u32>,
) -> Result<(), AllocError> {
    let event = Event {
        process,
        line: 0,
        clock: List::from_vec(clock),
        kind: Kind::Internal,
        assigns: List::new(alloc),
    };
    case.events.push(event).map_err(|_| AllocError)
}

// The clock of an event that knows its own process alone.
fn local_clock(
    alloc: Global,
    procs: u32,
    process: u32,
    position: u32,
) -> Result<Vec<u32>, AllocError> {
    let mut clock = Vec::new(alloc);
    for other in 0..procs {
        clock.push(if other == process { position } else { 0 })?;
    }
    Ok(clock)
}

// Gives a process so many events that know their own process alone.
fn add_locals(alloc: Global, case: &mut Case, process: u32, events: u32) -> Result<(), AllocError> {
    for before in 0..events {
        let clock = local_clock(alloc, case.procs, process, before + 1)?;
        add_event(alloc, case, process, clock)?;
    }
    Ok(())
}

fn add_all_locals(alloc: Global, case: &mut Case, events: u32) -> Result<(), AllocError> {
    for process in 0..case.procs {
        add_locals(alloc, case, process, events)?;
    }
    Ok(())
}

fn add_pull(alloc: Global, case: &mut Case, numbers: &[u32]) -> Result<bool, AllocError> {
    if numbers.len() < 3 {
        return Ok(false);
    }
    let table = List::from_vec(Vec::from_slice(alloc, &numbers[2..])?);
    if let Some(part) = case.parts.last_mut() {
        part.pulls.push(Pull {
            src: numbers[0],
            dst: numbers[1],
            table,
        })?;
        return Ok(true);
    }
    Ok(false)
}

fn add_operator(case: &mut Case, operator: Operator) -> Result<bool, AllocError> {
    if let Some(part) = case.parts.last_mut() {
        part.operators.push(operator)?;
        return Ok(true);
    }
    Ok(false)
}

fn add_edge(wanted: &mut Wanted, numbers: &[u32]) -> Result<bool, AllocError> {
    if numbers.len() != 4 {
        return Ok(false);
    }
    let cause = EventId {
        process: numbers[0],
        position: numbers[1],
    };
    let effect = EventId {
        process: numbers[2],
        position: numbers[3],
    };
    wanted.edges.push(Edge { cause, effect })?;
    Ok(true)
}

// Takes a line that says what must come out; false where the keyword is another.
fn add_wanted(wanted: &mut Wanted, keyword: &str, numbers: Vec<u32>) -> Result<bool, AllocError> {
    match keyword {
        "empty" => wanted.empty = true,
        "bottom" => wanted.bottom = Some(numbers),
        "top" => wanted.top = Some(numbers),
        "edge" => return add_edge(wanted, &numbers),
        "has" => wanted.has.push(numbers)?,
        "lacks" => wanted.lacks.push(numbers)?,
        _ => return Ok(false),
    }
    Ok(true)
}

// Takes a line that says what goes in; false where the keyword is another.
fn add_given(
    alloc: Global,
    case: &mut Case,
    keyword: &str,
    numbers: &[u32],
) -> Result<bool, AllocError> {
    match keyword {
        "procs" if numbers.len() == 1 => case.procs = numbers[0],
        "locals" if numbers.len() == 1 => add_all_locals(alloc, case, numbers[0])?,
        "event" if numbers.len() > 1 => {
            let clock = Vec::from_slice(alloc, &numbers[1..])?;
            add_event(alloc, case, numbers[0], clock)?;
        }
        "part" => case.parts.push(Part::new(alloc))?,
        "pull" => return add_pull(alloc, case, numbers),
        "possible" => return add_operator(case, Operator::Ef),
        "always" => return add_operator(case, Operator::Ag),
        "staying" => return add_operator(case, Operator::Eg),
        _ => return Ok(false),
    }
    Ok(true)
}

// `OPERATOR WITNESS`; false where the operator is another.
fn add_why(alloc: Global, wanted: &mut Wanted, text: &str) -> Result<bool, AllocError> {
    let (word, told) = text.split_once(' ').unwrap_or((text, ""));
    let operator = match word {
        "possible" => Explained::ForEf,
        "always" => Explained::ForAg,
        "staying" => Explained::ForEg,
        _ => return Ok(false),
    };
    let told = String::from_str(alloc, told)?;
    wanted.whys.push(Why { operator, told })?;
    Ok(true)
}

// Takes a line behind the name; false where it could not be read.
fn take_line(
    alloc: Global,
    case: &mut Case,
    keyword: &str,
    rest: &str,
) -> Result<bool, AllocError> {
    if keyword == "why" {
        return add_why(alloc, &mut case.wanted, rest);
    }
    let numbers = numbers_in(alloc, rest)?;
    if add_given(alloc, case, keyword, &numbers)? {
        return Ok(true);
    }
    add_wanted(&mut case.wanted, keyword, numbers)
}

/// Adds to the case what the line says, or keeps the line as one that could not be read.
pub fn add_line(alloc: Global, case: &mut Case, line: &str) -> Result<(), AllocError> {
    let (keyword, rest) = line.split_once(' ').unwrap_or((line, ""));
    if keyword == "case" {
        case.name = String::from_str(alloc, rest)?;
        return Ok(());
    }
    if !take_line(alloc, case, keyword, rest)? {
        case.unread = Some(String::from_str(alloc, line)?);
    }
    Ok(())
}
