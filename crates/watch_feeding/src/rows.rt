ghost use Rattle.std.specs.Prelude.{◌≡◌, ℕ, ◌<◌, ◌≤◌, [], length, map, take, get_or, slice_set};
ghost use Rattle.std.specs.Prelude.{IfOk, OnOk};
ghost use Rattle.local_preds.specs.LocalRuns.{AreFull};
ghost use Rattle.watch_feeding.specs.Fed.{HaveRows, RowsHaveGrown};

use event_log::States;
use pota_base::{List, NoMemory};
use std::alloc::Global;

// Lengthens a row to this many truths. Without memory it may be longer than it was.
fn lengthen(row: &mut List<bool>, len: usize) -> Result<(), NoMemory>
    requires { length row.old ≤ len }
    ensures front { take (length row.old) row.new ≡ row.old }
    ensures len { OnOk result (length row.new ≡ len) }
{
    for _ in row.len()..len {
        row.push(false)?;
    }
    Ok(())
}

// Lengthens row `w` to this many truths. Without memory it may be longer than it was.
fn lengthen_row(
    alloc: Global,
    rows: &mut List<List<bool>>,
    w: usize,
    len: usize,
) -> Result<(), NoMemory>
    requires there { w < length rows.old }
    requires len { length (get_or rows.old w []) ≤ len }
    ensures row { rows.new ≡ slice_set rows.old w (get_or rows.new w []) }
    ensures front { take (length (get_or rows.old w [])) (get_or rows.new w [])
        ≡ get_or rows.old w [] }
    ensures len { OnOk result (length (get_or rows.new w []) ≡ len) }
{
    let mut row = rows.replace(w, List::new(alloc));
    let lengthened = lengthen(&mut row, len);
    let _empty = rows.replace(w, row);
    lengthened
}

/// Lengthens the row of each watch on a process to one truth for each state of the process, and
/// gives how long each row was. Without memory some of the rows may be longer than they were.
pub fn lengthen_rows(
    alloc: Global,
    watch_process: &[Option<u32>],
    states: &States,
    rows: &mut List<List<bool>>,
) -> Result<List<usize>, NoMemory>
    requires { HaveRows states.now watch_process.now rows.old }
    ensures lens { IfOk result (λ lens. lens ≡ map length rows.old) }
    ensures full { OnOk result ((p : ℕ) → AreFull states.now watch_process.now rows.new p) }
    ensures grown { RowsHaveGrown watch_process.now rows.old rows.new }
{
    let mut lens = List::new(alloc);
    for w in 0..watch_process.len() {
        lens.push(rows.get(w).len())?;
        if let Some(process) = watch_process[w] {
            let len = states.shape().len_of(process) as usize + 1;
            lengthen_row(alloc, rows, w, len)?;
        }
    }
    Ok(lens)
}
