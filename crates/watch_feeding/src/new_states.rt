ghost use Rattle.std.specs.Prelude.{◌≡◌, ℕ, List, [], Option, Some, None, length, drop, get_or};
ghost use Rattle.std.specs.Prelude.{slice_get, OnOk, OnErr};
ghost use Rattle.local_preds.specs.LocalRuns.{AreFull};
ghost use Rattle.watch.specs.Saying.{said_by};
ghost use Rattle.watch_feeding.specs.Fed.{states_at, IsFed, HaveRows, RowsHaveGrown, KeepPlaces};

use crate::feeding::feed_watches;
use crate::rows::lengthen_rows;
use event_log::States;
use pota_base::{List, NoMemory};
use std::alloc::Global;
use watch::Handed;

/// Feeds each watch on a process the states of the process that it wasn't fed yet. It was fed as
/// many as its row has truths. Without memory no watch is fed; rows may then be longer.
pub fn feed_new_states(
    alloc: Global,
    watch_process: &[Option<u32>],
    states: &States,
    watches: &mut Vec<Handed>,
    rows: &mut List<List<bool>>,
) -> Result<(), NoMemory>
    requires rows { HaveRows states.now watch_process.now rows.old }
    requires watches { length watches.old.items ≡ length watch_process.now }

    ensures fed { OnOk result ((w p : ℕ) (before after : _) → get_or watch_process.now w None ≡ Some
        p → slice_get watches.old.items w ≡ Some before → slice_get watches.new.items w ≡ Some after
        → IsFed (get_or rows.old w [])
        (drop (length (get_or rows.old w [])) (states_at states.now p)) (said_by answers before)
        (get_or rows.new w []) (said_by answers after)) }
    ensures full { OnOk result ((p : ℕ) → AreFull states.now watch_process.now rows.new p) }
    ensures grown { RowsHaveGrown watch_process.now rows.old rows.new }
    ensures places { KeepPlaces watch_process.now watches.old.items watches.new.items }
    ensures memory { OnErr result (watches.new ≡ watches.old) }
{
    let lens = lengthen_rows(alloc, watch_process, states, rows)?;
    feed_watches(alloc, watch_process, states, lens.as_slice(), watches, rows);
    Ok(())
}
