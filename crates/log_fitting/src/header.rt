//! Whether a header and events may be handed to the calls on states.
ghost use Rattle.std.specs.Prelude.{IsTrue, ℕ, ◌≤◌, [], length, get_or};
ghost use Rattle.std.specs.List.{AllByRecursion};
ghost use Rattle.pota_base.specs.Limits.{most_variables};
ghost use Rattle.event_log.specs.States.{IsHeader, IsKnown, AreNamedApart, AssignsWithin};

use event_log::{Binding, Event, Header};
use log_lines::are_distinct;
use pota_base::{List, MOST_PROCESSES, MOST_VARIABLES};

// Whether no two variables of a process have one name.
fn all_apart(vars: &[List<Binding>]) -> bool
    ensures { IsTrue result → AllByRecursion AreNamedApart vars.now }
{
    for bindings in vars {
        if !are_distinct(bindings.as_slice()) {
            return false;
        }
    }
    true
}

/// Whether the header is one.
pub fn is_header(header: &Header) -> bool
    ensures { IsTrue result → IsHeader header.now }
{
    let procs = header.procs.as_slice();
    let vars = header.vars.as_slice();
    if procs.is_empty() || procs.len() > MOST_PROCESSES || vars.len() != procs.len() {
        return false;
    }
    are_distinct(procs) && all_apart(vars)
}

/// Whether no process has more variables than one may have.
pub fn has_few_variables(header: &Header) -> bool
    ensures { IsTrue result → (p : ℕ) → length (get_or header.now.vars p []) ≤ most_variables }
{
    for bindings in header.vars.as_slice() {
        if bindings.len() > MOST_VARIABLES {
            return false;
        }
    }
    true
}

// Whether each of the assigned variables is one of so many.
fn assigns_within(width: usize, event: &Event) -> bool
    ensures { IsTrue result → AssignsWithin width event.now }
{
    for assign in event.assigns.as_slice() {
        if assign.variable as usize >= width {
            return false;
        }
    }
    true
}

// Whether the process of the event and the variables that it assigns are there.
fn is_known(header: &Header, event: &Event) -> bool
    ensures { IsTrue result → IsKnown header.now event.now }
{
    let process = event.process as usize;
    if process >= header.procs.len() || process >= header.vars.len() {
        return false;
    }
    assigns_within(header.vars.get(process).len(), event)
}

/// Whether each event is known.
pub fn are_known(header: &Header, events: &[Event]) -> bool
    ensures { IsTrue result → AllByRecursion (IsKnown header.now) events.now }
{
    for event in events {
        if !is_known(header, event) {
            return false;
        }
    }
    true
}
