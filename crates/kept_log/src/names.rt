//! What a log is folded to, by names.
ghost use Rattle.std.specs.Prelude.{◌≡◌, map, IfOk};
ghost use Rattle.event_log.specs.Numbers.{variables_at};
ghost use Rattle.kept_log.specs.inside.Numbered.{process_in, variable_in, ends_in, numbers_in};

use crate::numbers::{Ends, Numbers};
use event_log::{Binding, Header, Name};
use kept_names::{Names, Pair};
use log_lines::{place_among, place_of};
use pota_base::{List, NoMemory};
use std::alloc::Global;

/// What the second name of a pair is the name of.
#[derive(Clone, Copy, Debug)]
enum Second {
    Variable,
    Receiver,
}

pub fn process_number(header: &Header, name: &Name) -> usize
    ensures { result ≡ process_in header.now name.now }
{
    let procs = header.procs.as_slice();
    place_among(procs, name.as_bytes()).unwrap_or(procs.len())
}

pub fn variables_at(header: &Header, process: usize) -> &[Binding]
    ensures { result.now ≡ variables_at header.now.vars process }
{
    match header.vars.as_slice().get(process) {
        Some(variables) => variables.as_slice(),
        None => &[],
    }
}

pub fn variable_number(header: &Header, process: usize, name: &Name) -> usize
    ensures { result ≡ variable_in header.now process name.now }
{
    let variables = variables_at(header, process);
    place_of(variables, name.as_bytes()).unwrap_or(variables.len())
}

fn ends_of(header: &Header, second: Second, pair: &Pair) -> Ends
    ensures { result ≡ ends_in header.now second pair.now }
{
    let first = process_number(header, &pair.first);
    let second = match second {
        Second::Variable => variable_number(header, first, &pair.second),
        Second::Receiver => process_number(header, &pair.second),
    };
    Ends { first, second }
}

fn all_ends(
    alloc: Global,
    header: &Header,
    second: Second,
    pairs: &[Pair],
) -> Result<List<Ends>, NoMemory>
    ensures { IfOk result (λ ends. ends ≡ map (ends_in header.now second) pairs.now) }
{
    let mut ends = List::with_capacity(alloc, pairs.len())?;
    for pair in pairs {
        ends.push(ends_of(header, second, pair))?;
    }
    Ok(ends)
}

fn process_numbers(alloc: Global, header: &Header, names: &[Name]) -> Result<List<usize>, NoMemory>
    ensures { IfOk result (λ numbers. numbers ≡ map (process_in header.now) names.now) }
{
    let mut numbers = List::with_capacity(alloc, names.len())?;
    for name in names {
        numbers.push(process_number(header, name))?;
    }
    Ok(numbers)
}

/// The names by the numbers of a header. A name that the header does not have gets the number
/// behind the last one, which no event has.
pub fn numbers_in(alloc: Global, header: &Header, names: &Names) -> Result<Numbers, NoMemory>
    ensures { IfOk result (λ numbers. numbers ≡ numbers_in header.now names.now) }
{
    Ok(Numbers {
        variables: all_ends(alloc, header, Second::Variable, names.variables.as_slice())?,
        channels: all_ends(alloc, header, Second::Receiver, names.channels.as_slice())?,
        processes: process_numbers(alloc, header, names.processes.as_slice())?,
    })
}
