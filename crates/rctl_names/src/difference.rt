//! Differences of counters with numbers in the place of names.
ghost use Rattle.rctl_class.specs.NamedParts.{diff_at_least, diff_at_most};
ghost use Rattle.rctl_names.specs.inside.Numbers.{counter_fault};
ghost use Rattle.rctl_names.specs.inside.Resolving.{FaultsOf, IsPartIn};
ghost use Rattle.rctl_names.specs.Resolving.{process_in, variable_in};
ghost use Rattle.rctl_names.specs.inside.Seen.{header_names};
ghost use Rattle.rctl_parse.specs.Reading.{Faults};
ghost use Rattle.std.specs.Prelude.{◌≡◌, MatchResult, None, Some};

use crate::numbers::{process_number, variable_number};
use crate::scope::Scope;
use rctl_class::Stop;
use rctl_grammar::Place;
use rctl_parts::Part;

/// A process and one of its variables, by their numbers.
#[derive(Clone, Copy)]
struct Counter {
    process: u32,
    variable: u32,
}

/// The numbers of a process and of one of its variables.
fn resolve_counter(scope: &Scope, process: &Place, variable: &Place) -> Result<Counter, Stop>
    ensures { MatchResult result (λ made. (counter_fault (header_names scope.now) process.now
        variable.now ≡ None) × (made.process ≡ process_in (header_names scope.now) process.now)
        × (made.variable ≡ variable_in (header_names scope.now) process.now variable.now)) (λ stop.
        Faults stop (λ f. counter_fault (header_names scope.now) process.now variable.now ≡ Some
        f)) }
{
    let number = process_number(scope, process)?;
    let variables = scope.variables[number as usize].as_slice();
    Ok(Counter {
        process: number,
        variable: variable_number(variables, variable)?,
    })
}

/// The left variable is at most `k` more than the right one.
#[tactic(auto, using(crate::proofs::Rules::pieces))]
pub fn at_most(
    scope: &Scope,
    left_process: &Place,
    left: &Place,
    right_process: &Place,
    right: &Place,
    k: i128,
) -> Result<Part, Stop>
    ensures { MatchResult result
        (IsPartIn (header_names scope.now)
        (diff_at_most left_process.now left.now right_process.now right.now k))
        (FaultsOf (header_names scope.now)
        (diff_at_most left_process.now left.now right_process.now right.now k)) }
{
    let left = resolve_counter(scope, left_process, left)?;
    let right = resolve_counter(scope, right_process, right)?;
    Ok(Part::DiffAtMost {
        left_process: left.process,
        left: left.variable,
        right_process: right.process,
        right: right.variable,
        k,
    })
}

/// The left variable is at least `k` more than the right one.
#[tactic(auto, using(crate::proofs::Rules::pieces))]
pub fn at_least(
    scope: &Scope,
    left_process: &Place,
    left: &Place,
    right_process: &Place,
    right: &Place,
    k: i128,
) -> Result<Part, Stop>
    ensures { MatchResult result
        (IsPartIn (header_names scope.now)
        (diff_at_least left_process.now left.now right_process.now right.now k))
        (FaultsOf (header_names scope.now)
        (diff_at_least left_process.now left.now right_process.now right.now k)) }
{
    let left = resolve_counter(scope, left_process, left)?;
    let right = resolve_counter(scope, right_process, right)?;
    Ok(Part::DiffAtLeast {
        left_process: left.process,
        left: left.variable,
        right_process: right.process,
        right: right.variable,
        k,
    })
}
