//! The first event of a batch that leaves a counter lower than it was.
ghost use Rattle.std.specs.Prelude.{◌≡◌, ℕ, ◌<◌, ◌≤◌, ◌==◌, true, false, length, All};
ghost use Rattle.std.specs.Prelude.{if◌then◌else◌};
ghost use Rattle.std.specs.List.{list_any};
ghost use Rattle.event_log.specs.States.{AreWhole};
ghost use Rattle.counter_preds.specs.declared.values.Variable.{Variable as VariableOf};
ghost use Rattle.counter_preds.specs.Counters.{IsVariable};
ghost use Rattle.counter_preds.specs.Falls.{fall_fault};
ghost use Rattle.counter_preds.specs.inside.Falls.{falls_at, assigned_value, left_by};

use crate::values::Variable;
use event_log::{Assign, Event, LogCode, LogFault, States};

/// The fault of a batch that comes behind the states: its first event that leaves one of these
/// counters lower than it was, at the line of the event.
pub fn first_fall(states: &States, batch: &[Event], counters: &[Variable]) -> Option<LogFault>
    requires { All (IsVariable states.now) counters.now }
    ensures { result ≡ fall_fault states.now counters.now batch.now }
{
    let event = batch.get(first_falling(states, batch, counters))?;
    Some(LogFault {
        code: LogCode::CounterFalls,
        line: event.line,
    })
}

/// The number of the first event of the batch that leaves one of the counters lower than it was,
/// counted from 0, or the number of events where there is none.
///
/// What one counter finds is as far as the next one looks.
fn first_falling(states: &States, batch: &[Event], counters: &[Variable]) -> usize
    requires { All (IsVariable states.now) counters.now }
    ensures within { result ≤ length batch.now }
    ensures before { (k : ℕ) → k < result
        → list_any (λ x. falls_at states.now batch.now x k) counters.now ≡ false }
    ensures falls { result < length batch.now
        → list_any (λ x. falls_at states.now batch.now x result) counters.now ≡ true }
{
    // Whose clause says that states have all lists of their header.
    let _header = states.header();
    let mut first = batch.len();
    for counter in counters {
        first = first_lowering(states, &batch[..first], *counter);
    }
    first
}

// The same of one counter.
fn first_lowering(states: &States, batch: &[Event], counter: Variable) -> usize
    requires whole { AreWhole states.now }
    requires variable { IsVariable states.now counter }
    ensures within { result ≤ length batch.now }
    ensures before { (k : ℕ) → k < result → falls_at states.now batch.now counter k ≡ false }
    ensures falls { result < length batch.now
        → falls_at states.now batch.now counter result ≡ true }
{
    let len = states.shape().len_of(counter.process);
    let mut value = states.value(counter.process, len, counter.number);
    for (place, event) in batch.iter().enumerate() {
        let next = value_behind(event, counter, value);
        if next < value {
            return place;
        }
        value = next;
    }
    batch.len()
}

// The value that the event leaves the variable, which was this before.
fn value_behind(event: &Event, variable: Variable, before: i64) -> i64
    ensures { result ≡ left_by event.now variable before }
{
    if event.process == variable.process {
        last_assigned(event.assigns.as_slice(), variable.number, before)
    } else {
        before
    }
}

// The value that the last of the assignments to a variable leaves it, which was this before.
fn last_assigned(assigns: &[Assign], number: u32, before: i64) -> i64
    ensures { result ≡ assigned_value number before assigns.now }
{
    let mut value = before;
    for assign in assigns {
        value = assigned(*assign, number, value);
    }
    value
}

// The value that one assignment leaves it.
fn assigned(assign: Assign, number: u32, before: i64) -> i64
    ensures { result ≡ (if assign.variable == number then assign.value else before) }
{
    if assign.variable == number {
        assign.value
    } else {
        before
    }
}
