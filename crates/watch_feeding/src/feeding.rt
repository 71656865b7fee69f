ghost use Rattle.std.specs.Prelude.{◌≡◌, ℕ, ◌+◌, ◌<◌, List, [], Option, Some, None, length};
ghost use Rattle.std.specs.Prelude.{take, drop, get_or, slice_get, slice_set};
ghost use Rattle.local_preds.specs.Rows.{len_at};
ghost use Rattle.local_preds.specs.LocalRuns.{AreFull};
ghost use Rattle.watch.specs.Saying.{said_by};
ghost use Rattle.watch_feeding.specs.Fed.{states_at, IsFed, MayBeFed, AreWithin, HaveRows};
ghost use Rattle.watch_feeding.specs.Fed.{RowsAreFed, KeepPlaces};

use event_log::States;
use pota_base::List;
use std::alloc::Global;
use watch::{Handed, Watch, feed_one};

/// Feeds a watch the states of a process from number `from` on, counted from 0, and puts its
/// answers into the row at their numbers.
pub fn feed_states(
    watch: &mut Box<dyn Watch + Send>,
    states: &States,
    process: u32,
    from: usize,
    row: &mut List<bool>,
)
    requires { MayBeFed states.now process from row.old }
    ensures fed { IsFed (take from row.old) (drop from (states_at states.now process))
        (answers watch.old) row.new (answers watch.new) }
    ensures kept { take from row.new ≡ take from row.old }
    ensures full { length row.new ≡ len_at states.now process + 1 }
{
    let len = states.shape().len_of(process) as usize;
    for position in from..len + 1 {
        let answer = feed_one(watch, states.state(process, position as u32));
        let _before = row.replace(position, answer);
    }
}

/// Feeds a watch the states of a process from number `from` on, and puts its answers into row `w`.
/// It takes no memory.
pub fn feed_row(
    alloc: Global,
    watch: &mut Box<dyn Watch + Send>,
    states: &States,
    process: u32,
    from: usize,
    w: usize,
    rows: &mut List<List<bool>>,
)
    requires there { w < length rows.old }
    requires row { MayBeFed states.now process from (get_or rows.old w []) }
    ensures fed { IsFed (take from (get_or rows.old w []))
        (drop from (states_at states.now process)) (answers watch.old) (get_or rows.new w [])
        (answers watch.new) }
    ensures kept { take from (get_or rows.new w []) ≡ take from (get_or rows.old w []) }
    ensures full { length (get_or rows.new w []) ≡ len_at states.now process + 1 }
    ensures others { rows.new ≡ slice_set rows.old w (get_or rows.new w []) }
{
    let mut row = rows.replace(w, List::new(alloc));
    feed_states(watch, states, process, from, &mut row);
    let _empty = rows.replace(w, row);
}

/// Feeds each watch `w` on a process the states of the process from number `from[w]` on, and puts
/// its answers into row `w`. It takes no memory.
pub fn feed_watches(
    alloc: Global,
    watch_process: &[Option<u32>],
    states: &States,
    from: &[usize],
    watches: &mut Vec<Handed>,
    rows: &mut List<List<bool>>,
)
    requires rows { HaveRows states.now watch_process.now rows.old }
    requires full { (p : ℕ) → AreFull states.now watch_process.now rows.old p }
    requires watches { length watches.old.items ≡ length watch_process.now }
    requires from { AreWithin watch_process.now from.now rows.old }

    ensures fed { (w p : ℕ) (before after : _) → get_or watch_process.now w None ≡ Some p
        → slice_get watches.old.items w ≡ Some before → slice_get watches.new.items w ≡ Some after
        → IsFed (take (get_or from.now w 0) (get_or rows.old w []))
        (drop (get_or from.now w 0) (states_at states.now p)) (said_by answers before)
        (get_or rows.new w []) (said_by answers after) }
    ensures rows { RowsAreFed watch_process.now from.now rows.old rows.new }
    ensures full { (p : ℕ) → AreFull states.now watch_process.now rows.new p }
    ensures places { KeepPlaces watch_process.now watches.old.items watches.new.items }
{
    for w in 0..watches.len() {
        if let Some(process) = watch_process[w] {
            feed_row(
                alloc,
                &mut watches[w].watch,
                states,
                process,
                from[w],
                w,
                rows,
            );
        }
    }
}
