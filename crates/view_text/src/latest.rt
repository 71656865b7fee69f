//! The event that last set a variable, and the one that sets it next.
ghost use Rattle.std.specs.Prelude.{◌≡◌, ◌<◌, ◌≤◌, [], length, map, get_or, IfSome};
ghost use Rattle.pota_base.specs.Shape.{HasEvent};
ghost use Rattle.view_parts.specs.Parts.{place};
ghost use Rattle.view_text.specs.Latest.{sets, last_setting, next_setting};

use event_log::{Event, States};
use pota_base::EventId;
use view_parts::event_at;

fn sets(variable: u32, event: &Event) -> bool
    ensures { result ≡ sets variable event.now }
{
    event
        .assigns
        .as_slice()
        .iter()
        .any(|assign| assign.variable == variable)
}

/// The position of the last of so many events of a process that sets the variable.
pub fn last_setting(states: &States, process: u32, variable: u32, events: u32) -> Option<u32>
    requires process { process < length states.now.events }
    requires events { events ≤ length (get_or states.now.events process []) }
    ensures last { result ≡ last_setting (get_or states.now.events process []) variable events }
    ensures there { IfSome result (λ position.
        HasEvent (map length states.now.events) (place process position)) }
{
    let mut position = events;
    while position > 0 {
        if sets(variable, event_at(states, EventId { process, position })) {
            return Some(position);
        }
        position -= 1;
    }
    None
}

/// The position of the first event of a process behind so many that sets the variable.
pub fn next_setting(states: &States, process: u32, variable: u32, events: u32) -> Option<u32>
    requires process { process < length states.now.events }
    requires events { events ≤ length (get_or states.now.events process []) }
    ensures next { result ≡ next_setting (get_or states.now.events process []) variable events }
    ensures there { IfSome result (λ position.
        HasEvent (map length states.now.events) (place process position)) }
{
    for before in events..states.shape().len_of(process) {
        let position = before + 1;
        if sets(variable, event_at(states, EventId { process, position })) {
            return Some(position);
        }
    }
    None
}
