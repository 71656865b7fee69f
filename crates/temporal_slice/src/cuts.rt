//! The event behind another in row order, and a cut joined with the words of a row.
ghost use Rattle.std.specs.Prelude.{◌≡◌, ◌+◌, ◌<◌, ◌≤◌, length, sum};
ghost use Rattle.pota_base.specs.Shape.{HasEvent, row_of};
ghost use Rattle.run_model.specs.Cut.{max_cut};
ghost use Rattle.pota_base.specs.Limits.{most_processes};

use cut_lattice::Cut;
use pota_base::{EventId, Shape};

/// What comes before the events: its row is the bottom's.
pub(crate) fn before_all() -> EventId
    ensures { result ≡ record { process = 0; position = 0 } }
{
    EventId {
        process: 0,
        position: 0,
    }
}

/// The event of the row behind that of an event. Mostly it is the next one of its process, so that
/// no process has to be looked for.
pub(crate) fn event_behind(shape: &Shape, before: EventId, row: u32) -> EventId
    requires process { before.process < length shape.now }
    requires row { row_of shape.now before + 1 ≡ row }
    requires last { row ≤ sum shape.now }
    ensures there { HasEvent shape.now result }
    ensures row { row_of shape.now result ≡ row }
{
    if before.position < shape.len_of(before.process) {
        return EventId {
            process: before.process,
            position: before.position + 1,
        };
    }
    shape.event_of(row).unwrap()
}

/// Makes `into` the componentwise maximum of the words and itself.
pub(crate) fn join_into(words: &[u32], into: &mut Cut)
    requires width { length words.now ≡ length into.old }
    requires few { length words.now ≤ most_processes }
    ensures { into.new ≡ max_cut words.now into.old }
{
    for process in 0..words.len() {
        let count = into.get(process as u32);
        into.set(process as u32, words[process].max(count));
    }
}
