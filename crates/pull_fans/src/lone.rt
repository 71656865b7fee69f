//! The fan that alone has pulls from a process.
ghost use Rattle.std.specs.Prelude.{◌≡◌, ◌+◌, ◌<◌, None, All, slice_index, IfSome};
ghost use Rattle.pull_system.specs.System.{SystemView, IsSystem};
ghost use Rattle.pull_fans.specs.Fans.{pulls_of_fans};
ghost use Rattle.pull_fans.specs.inside.Asks.{IsFanOfAsks};
ghost use Rattle.pull_fans.specs.inside.First.{IsFirstFrom, IsFromOther};

use crate::fan::Fan;
use pota_base::Shape;

/// The number of the first fan with pulls from the process.
pub(crate) fn first_from(fans: &[Fan], process: u32) -> Option<usize>
    ensures some { IfSome result (IsFirstFrom fans.now process) }
    ensures none { result ≡ None → All (IsFromOther process) (pulls_of_fans fans.now) }
{
    for (number, fan) in fans.iter().enumerate() {
        if fan.source() != process || fan.targets().is_empty() {
            continue;
        }
        return Some(number);
    }
    None
}

/// The number of the fan that alone has pulls from the process, if it has one to each process in
/// turn, or to each but the process: its rows are the rows of asks.
pub(crate) fn lone_fan(shape: &Shape, fans: &[Fan], process: u32) -> Option<usize>
    requires { IsSystem record { lens = shape.now; pulls = pulls_of_fans fans.now } }
    ensures { let system : SystemView = record { lens = shape.now; pulls = pulls_of_fans fans.now }
        in IfSome result (IsFanOfAsks system fans.now process (slice_index shape.now process + 2)) }
{
    let Some(number) = first_from(fans, process) else {
        return None;
    };
    let (_, others) = fans.split_at(number + 1);
    if first_from(others, process).is_some() || !fans[number].goes_around(shape.procs()) {
        return None;
    }
    Some(number)
}
