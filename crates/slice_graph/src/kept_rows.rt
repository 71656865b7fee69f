//! The rows of a slice, from the least closed vectors.
ghost use Rattle.std.specs.Prelude.{◌≡◌, ℕ, ◌+◌, ◌*◌, ◌<◌, ◌≤◌, ◌↔◌, length, sum, take};
ghost use Rattle.std.specs.Prelude.{slice_index, IsTrue, OnOk};
ghost use Rattle.std.specs.Bool.{OnTrue};
ghost use Rattle.pota_base.specs.Shape.{IsShape};
ghost use Rattle.run_model.specs.Cut.{IsWithin, max_cut};
ghost use Rattle.pull_system.specs.Rows.{row_at};
ghost use Rattle.slice_graph.specs.inside.Pushing.{AreRising, PushesRows, so_far};

use crate::cuts::join_words;
use crate::table::CutTable;
use pota_base::{EventId, MOST_PROCESSES, NoMemory};
use pull_system::Rows;

/// Puts the rows of a process behind the others, and makes `top` its maximum with those that have a
/// cut. The least closed vectors of a process rise. Where its rows do, they are copied at once.
pub(crate) fn push_process(
    table: &mut CutTable,
    rows: &Rows,
    process: u32,
    top: &mut [u32],
) -> Result<(), NoMemory>
    requires lens { table.old.lens ≡ rows.now.lens }
    requires process { process < length rows.now.lens }
    requires width { length top.old ≡ length rows.now.lens }
    ensures width { length top.new ≡ length top.old }
    ensures pushed { OnOk result (PushesRows rows.now (sum (take process rows.now.lens) + 1)
        (slice_index rows.now.lens process) (so_far table.old top.old)
        (so_far table.new top.new)) }
{
    let shape = rows.shape();
    let count = shape.len_of(process);
    if count == 0 {
        return Ok(());
    }
    let position = 1;
    let first = shape.row_of(EventId { process, position });
    if rise(rows, first, count) {
        push_rising(table, rows, first, count, top)
    } else {
        push_each(table, rows, first, count, top)
    }
}

/// Puts rows behind the others, one after the other.
pub(crate) fn push_each(
    table: &mut CutTable,
    rows: &Rows,
    first: u32,
    count: u32,
    top: &mut [u32],
) -> Result<(), NoMemory>
    requires lens { table.old.lens ≡ rows.now.lens }
    requires rows { first + count ≤ sum rows.now.lens + 1 }
    requires width { length top.old ≡ length rows.now.lens }
    ensures width { length top.new ≡ length top.old }
    ensures pushed { OnOk result
        (PushesRows rows.now first count (so_far table.old top.old) (so_far table.new top.new)) }
{
    let mut room = [0; MOST_PROCESSES];
    let room = &mut room[..rows.shape().procs() as usize];
    for done in 0..count {
        push_kept(table, rows, first + done, room, top)?;
    }
    Ok(())
}

/// Puts behind the other rows the cut that a row's vector is, and none where a component is above
/// its length.
fn push_kept(
    table: &mut CutTable,
    rows: &Rows,
    row: u32,
    cut: &mut [u32],
    top: &mut [u32],
) -> Result<(), NoMemory>
    requires row { row ≤ sum rows.now.lens }
    requires lens { table.old.lens ≡ rows.now.lens }
    requires width { length cut.old ≡ length rows.now.lens }
    requires top { length top.old ≡ length rows.now.lens }
    ensures width { length cut.new ≡ length cut.old }
    ensures top { length top.new ≡ length top.old }
    ensures pushed { OnOk result
        (PushesRows rows.now row 1 (so_far table.old top.old) (so_far table.new top.new)) }
{
    let shape = rows.shape();
    if keep(rows.row(row), shape.lens(), cut) {
        join_words(cut, top);
        table.push_cut(cut)
    } else {
        table.push_none()
    }
}

/// Whether each component of the vector is at most its length. Then `cut` is the vector.
fn keep(vector: &[u16], lens: &[u32], cut: &mut [u32]) -> bool
    requires shape { IsShape lens.now }
    requires vector { length vector.now ≡ length lens.now }
    requires width { length cut.old ≡ length lens.now }
    ensures within { IsTrue result ↔ IsWithin vector.now lens.now }
    ensures cut { OnTrue result (cut.new ≡ vector.now) }
    ensures width { length cut.new ≡ length cut.old }
{
    let mut past = false;
    // To its end in each case, so that the loop has no exit within.
    for process in 0..lens.len() {
        let count = vector[process] as u32;
        cut[process] = count;
        if lens[process] < count {
            past = true;
        }
    }
    !past
}

/// Puts rows behind the others of which each is at most the next: those with a cut come first.
fn push_rising(
    table: &mut CutTable,
    rows: &Rows,
    first: u32,
    count: u32,
    top: &mut [u32],
) -> Result<(), NoMemory>
    requires lens { table.old.lens ≡ rows.now.lens }
    requires rows { first + count ≤ sum rows.now.lens + 1 }
    requires rise { AreRising rows.now first count }
    requires width { length top.old ≡ length rows.now.lens }
    ensures width { length top.new ≡ length top.old }
    ensures pushed { OnOk result
        (PushesRows rows.now first count (so_far table.old top.old) (so_far table.new top.new)) }
{
    let kept = rows_with_cuts(rows, first, count);
    push_cuts(table, rows, first, kept, top)?;
    table.push_nones(count - kept)
}

/// Puts rows with a cut behind the others of which each is at most the next. The last of them is
/// their maximum.
fn push_cuts(
    table: &mut CutTable,
    rows: &Rows,
    first: u32,
    count: u32,
    top: &mut [u32],
) -> Result<(), NoMemory>
    requires lens { table.old.lens ≡ rows.now.lens }
    requires rows { first + count ≤ sum rows.now.lens + 1 }
    requires rise { AreRising rows.now first count }
    requires cuts { (a : ℕ) → a < count
        → IsWithin (row_at rows.now.lens rows.now.words (first + a)) rows.now.lens }
    requires width { length top.old ≡ length rows.now.lens }
    ensures width { length top.new ≡ length top.old }
    ensures pushed { OnOk result
        (PushesRows rows.now first count (so_far table.old top.old) (so_far table.new top.new)) }
{
    if count == 0 {
        return Ok(());
    }
    let width = rows.shape().procs() as usize;
    let begin = first as usize * width;
    let end = (first + count) as usize * width;
    table.push_cuts(&rows.as_words()[begin..end], count as usize)?;
    join_narrow(rows.row(first + count - 1), top);
    Ok(())
}

/// Whether each of the rows is at most the next of them.
fn rise(rows: &Rows, first: u32, count: u32) -> bool
    requires some { 0 < count }
    requires rows { first + count ≤ sum rows.now.lens + 1 }
    ensures { IsTrue result → AreRising rows.now first count }
{
    let width = rows.shape().procs() as usize;
    let begin = first as usize * width;
    let last = (first + count - 1) as usize * width;
    let words = rows.as_words();
    are_at_most(&words[begin..last], &words[begin + width..last + width])
}

/// Whether each of the words is at most the other in its place.
fn are_at_most(words: &[u16], others: &[u16]) -> bool
    requires { length others.now ≡ length words.now }
    ensures { IsTrue result → (i : ℕ) → i < length words.now
        → slice_index words.now i ≤ slice_index others.now i }
{
    let mut excess = 0;
    // To its end in each case, so that the loop has no exit within.
    for i in 0..words.len() {
        excess = words[i].saturating_sub(others[i]).max(excess);
    }
    excess == 0
}

/// How many of the rows come before one without a cut, the last of them having one. Of rows that
/// rise these are all that have one.
fn rows_with_cuts(rows: &Rows, first: u32, count: u32) -> u32
    requires { first + count ≤ sum rows.now.lens + 1 }
    ensures few { result ≤ count }
    ensures cut { (a : ℕ) → a + 1 ≡ result
        → IsWithin (row_at rows.now.lens rows.now.words (first + a)) rows.now.lens }
    ensures past { result < count
        → IsWithin (row_at rows.now.lens rows.now.words (first + result)) rows.now.lens → ⊥ }
{
    let lens = rows.shape().lens();
    let mut room = [0; MOST_PROCESSES];
    let room = &mut room[..lens.len()];
    let (mut known, mut most) = (0, count);
    'halves: while known < most {
        let middle = known + (most - known) / 2;
        if keep(rows.row(first + middle), lens, room) {
            known = middle + 1;
        } else {
            most = middle;
        }
    }
    known
}

/// Makes `into` the componentwise maximum of the words and itself.
fn join_narrow(words: &[u16], into: &mut [u32])
    requires { length words.now ≡ length into.old }
    ensures { into.new ≡ max_cut words.now into.old }
{
    for process in 0..words.len() {
        into[process] = into[process].max(words[process] as u32);
    }
}
