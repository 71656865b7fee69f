//! The numbers of names: their places among the names of a header or of watches.
ghost use Rattle.log_lines.specs.Names.{place_of};
ghost use Rattle.rctl_names.specs.inside.Numbers.{process_fault, put, unless_known, variable_fault};
ghost use Rattle.rctl_names.specs.inside.Numbers.{watch_fault};
ghost use Rattle.rctl_names.specs.Seen.{variables_in};
ghost use Rattle.rctl_names.specs.inside.Seen.{processes_in, watched_in};
ghost use Rattle.rctl_parse.specs.Reading.{Faults};
ghost use Rattle.std.specs.Prelude.{◌≡◌, ◌<◌, ◌≤◌, length, map, MatchResult, None, Some};
ghost use Rattle.pota_base.specs.Limits.{most_processes, most_variables};

use crate::scope::Scope;
use crate::watches::Watches;
use event_log::Binding;
use log_lines::{Named, place_of};
use rctl_class::{Stop, fault};
use rctl_grammar::{FormulaCode, Place};

/// The number of a name among a few. `Fault` has the code, at the name, where it is none of them.
fn number_of<T: Named>(items: &[T], place: &Place, code: FormulaCode) -> Result<u32, Stop>
    requires { length items.now ≤ most_processes }
    ensures { MatchResult result (λ n. (place_of (map T.name items.now) place.now.name ≡ Some n)
        × (n < length items.now)) (λ stop. Faults stop (λ f. unless_known code place.now
        (place_of (map T.name items.now) place.now.name) ≡ Some f)) }
{
    match place_of(items, place.name.as_bytes()) {
        Some(number) => Ok(number as u32),
        None => Err(fault(code, place.at)),
    }
}

/// The number of a process.
pub fn process_number(scope: &Scope, place: &Place) -> Result<u32, Stop>
    ensures { MatchResult result
        (λ n. (place_of (processes_in scope.now) place.now.name ≡ Some n)
        × (n < length scope.now.processes.now))
        (λ stop. Faults stop (λ f. process_fault (processes_in scope.now) place.now ≡ Some f)) }
{
    number_of(scope.processes, place, FormulaCode::UnknownProcess)
}

/// The number of a variable of a process that has these.
pub fn variable_number(variables: &[Binding], place: &Place) -> Result<u32, Stop>
    requires { length variables.now ≤ most_variables }
    ensures { MatchResult result
        (λ n. place_of (variables_in variables.now) place.now.name ≡ Some n)
        (λ stop. Faults stop (λ f. variable_fault (variables_in variables.now) place.now
        ≡ Some f)) }
{
    let number = number_of(variables, place, FormulaCode::UnknownVariable)?;
    Ok(number)
}

/// The number of a watch, which is on the process from now on. `Fault` where no watch has the
/// name, or where it is on another process.
pub fn watch_number(watches: &mut Watches, place: &Place, process: u32) -> Result<u32, Stop>
    ensures { MatchResult result (λ n. (place_of watches.old.names.now place.now.name ≡ Some n)
        × (watch_fault (watched_in watches.old) process place.now ≡ None) × (watched_in watches.new
        ≡ put (watched_in watches.old) process place.now)) (λ stop. Faults stop
        (λ f. watch_fault (watched_in watches.old) process place.now ≡ Some f)) }
{
    let number = number_of(watches.names, place, FormulaCode::UnknownWatch)?;
    match watches.on.get(number as usize) {
        Some(other) if *other != process => Err(fault(FormulaCode::WatchTwice, place.at)),
        _ => {
            let _before = watches.on.replace(number as usize, Some(process));
            Ok(number)
        }
    }
}
