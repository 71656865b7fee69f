//! The values of a variable along its process.
ghost use Rattle.std.specs.Prelude.{◌≡◌, ◌+◌, ◌≤◌, length, IfOk};
ghost use Rattle.pota_base.specs.Limits.{most_events};
ghost use Rattle.counter_preds.specs.Counters.{IsVariable, values_of};

use event_log::States;
use pota_base::{List, NoMemory};
use std::alloc::Global;

/// A variable of a process, by the numbers of both in the header.
#[derive(Clone, Copy, Debug, PartialEq, Eq)]
pub struct Variable {
    pub process: u32,
    pub number: u32,
}

/// The value after each number of events of the process, none included.
pub fn values_along(
    alloc: Global,
    states: &States,
    variable: Variable,
) -> Result<List<i64>, NoMemory>
    requires { IsVariable states.now variable }
    ensures values { IfOk result (λ values. values ≡ values_of states.now variable) }
    ensures few { IfOk result (λ values. length values ≤ most_events + 1) }
{
    let len = states.shape().len_of(variable.process);
    let mut values = Vec::with_capacity(alloc, len as usize + 1)?;
    for position in 0..len + 1 {
        values.push(states.value(variable.process, position, variable.number))?;
    }
    Ok(List::from_vec(values))
}
