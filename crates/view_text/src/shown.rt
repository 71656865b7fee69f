//! Which steps of a path are shown.
ghost use Rattle.std.specs.Prelude.{◌≡◌, ◌<◌, ◌≤◌, [], length, map, get_or, IfOk};
ghost use Rattle.std.specs.List.{AllByRecursion};
ghost use Rattle.pota_base.specs.Shape.{HasEvent};
ghost use Rattle.report_lines.specs.Spelling.{PathFits};
ghost use Rattle.view_text.specs.Shown.{keeps, kept_at, kept_among, shown_above, limit_of};
ghost use Rattle.view_text.specs.Shown.{bounds_of, is_whole, is_shown};

use crate::witnesses::Told;
use pota_base::{EventId, List, NoMemory};
use view_parts::{Extent, Sought, is_about, names};
use witness_kinds::Path;

/// A path of at most so many steps is short enough to be shown whole.
const FEW_STEPS: usize = 30;

/// Where the formula is about more events than that, not all of them are shown.
const MANY_KEPT: usize = 60;

/// How many of each process are shown then.
const LAST_KEPT: u32 = 12;

// Whether the formula is about the event. With `EX` it is about each.
fn keeps(told: &Told<'_>, event: EventId) -> bool
    requires { HasEvent (map length told.now.states.now.events) event }
    ensures { result ≡ keeps told.now.states.now told.now.tokens.now event }
{
    names(Sought::Next, told.tokens) || is_about(told.states, told.tokens, event)
}

// How many of the steps the formula is about.
fn kept_among(told: &Told<'_>, steps: &[EventId]) -> usize
    requires { AllByRecursion (HasEvent (map length told.now.states.now.events)) steps.now }
    ensures { result ≡ kept_among told.now.states.now told.now.tokens.now steps.now }
{
    let mut kept = 0;
    for k in 0..steps.len() {
        if keeps(told, steps[k]) {
            kept += 1;
        }
    }
    kept
}

// How many steps of each process are shown at most.
fn limit_of(told: &Told<'_>, steps: &[EventId]) -> u32
    requires { AllByRecursion (HasEvent (map length told.now.states.now.events)) steps.now }
    ensures { result ≡ limit_of told.now.extent
        (kept_among told.now.states.now told.now.tokens.now steps.now) }
{
    match told.extent {
        Extent::Folded if kept_among(told, steps) <= MANY_KEPT => MANY_KEPT as u32,
        Extent::Folded => LAST_KEPT,
        Extent::Last(limit) => limit,
        Extent::Whole => 0,
    }
}

// The position above which lie the last so many events of the process, of the first `events`, that
// the formula is about.
fn shown_above(told: &Told<'_>, process: u32, limit: u32, events: u32) -> u32
    requires process { process < length told.now.states.now.events }
    requires events { events ≤ length (get_or told.now.states.now.events process []) }
    ensures { result ≡ shown_above (kept_at told.now.states.now told.now.tokens.now process)
        limit events }
{
    let (mut left, mut position) = (limit, events);
    while left > 0 && position > 0 {
        if keeps(told, EventId { process, position }) {
            left -= 1;
        }
        position -= 1;
    }
    position
}

/// The position of each process above which its steps of the path are shown.
pub fn bounds_of(told: &Told<'_>, path: &Path) -> Result<List<u32>, NoMemory>
    requires { PathFits (map length told.now.states.now.events) path.now }
    ensures { IfOk result (λ bounds. bounds
        ≡ bounds_of told.now.states.now told.now.tokens.now told.now.extent path.now) }
{
    let limit = limit_of(told, path.steps.as_slice());
    let mut bounds = List::new(told.alloc);
    for process in 0..told.states.shape().procs() {
        bounds.push(shown_above(told, process, limit, path.goal.get(process)))?;
    }
    Ok(bounds)
}

/// Whether a path with so many steps is shown whole.
pub fn is_whole(extent: Extent, steps: usize) -> bool
    ensures { result ≡ is_whole extent steps }
{
    match extent {
        Extent::Folded => steps <= FEW_STEPS,
        Extent::Last(_) => false,
        Extent::Whole => true,
    }
}

/// Whether the step is shown, of a path that is shown whole or has these bounds. Most steps are not
/// above them, and of those the formula is not looked at.
pub fn is_shown(told: &Told<'_>, whole: bool, bounds: &List<u32>, step: EventId) -> bool
    requires step { HasEvent (map length told.now.states.now.events) step }
    requires bounds { length bounds.now ≡ length told.now.states.now.events }
    ensures { result ≡ is_shown told.now.states.now told.now.tokens.now whole bounds.now step }
{
    whole || *bounds.get(step.process as usize) < step.position && keeps(told, step)
}
