//! Rows that a table of a system may begin from: those of a slice, and the clocks of an order.
ghost use Rattle.std.specs.Prelude.{◌≡◌, ℕ, ◌+◌, ◌<◌, ◌≤◌, List, length, get_or, replicate, sum};
ghost use Rattle.std.specs.Prelude.{◌^◌, slice_index, IfOk};
ghost use Rattle.pota_base.specs.Shape.{HasEvent, row_of};
ghost use Rattle.pota_base.specs.declared.shape.EventId.{EventId};
ghost use Rattle.run_model.specs.Cut.{Clocks, lengths, max_cut};
ghost use Rattle.run_model.specs.Consistent.{clock};
ghost use Rattle.pull_system.specs.declared.pull.Pull.{Pull};
ghost use Rattle.pull_system.specs.Vector.{IsVector};
ghost use Rattle.pull_system.specs.Rows.{row_at};
ghost use Rattle.slice_graph.specs.Views.{no_row};
ghost use Rattle.slice_graph.specs.Words.{filled};
ghost use Rattle.slice_graph.specs.Fitting.{FitsOrder};
ghost use Rattle.slice_graph.specs.PullLists.{pulls_of_order, pulls_of_slice};
ghost use Rattle.slice_graph.specs.Starting.{AreAbove, AreWithinClosed};

use crate::cuts::join_words;
use crate::slice::Slice;
use causal_order::Order;
use pota_base::{MOST_PROCESSES, NoMemory};
use pull_system::Floor;
use std::alloc::Global;

/// How many words are made wide before they are appended.
const PIECE: usize = 128;

impl Slice {
    /// The rows of the slice, as a table of a system may begin from them. A row without a cut has
    /// one more than each length.
    pub fn rows(&self, alloc: Global) -> Result<Floor, NoMemory>
        ensures lens { IfOk result (λ rows. rows.lens ≡ self.now.lens) }
        ensures words { IfOk result (λ rows. (row : ℕ) → row ≤ sum self.now.lens
            → row_at self.now.lens rows.words row
            ≡ filled self.now.lens (get_or self.now.rows row no_row)) }
        ensures begins { (o : Clocks) → FitsOrder o self.now → IfOk result (λ rows.
            AreWithinClosed self.now.lens (pulls_of_slice self.now) rows.words) }
    {
        let words = wide_words(alloc, self.all_words())?;
        Floor::from_words(alloc, self.shape(), words)
    }
}

/// The clocks of the events as rows, with zeros as the bottom's, as a table of a system may begin
/// from them.
pub fn order_rows(alloc: Global, order: &Order) -> Result<Floor, NoMemory>
    ensures lens { IfOk result (λ rows. rows.lens ≡ lengths order.now) }
    ensures bottom { IfOk result (λ rows.
        row_at (lengths order.now) rows.words 0 ≡ replicate (length order.now) 0) }
    ensures events { IfOk result (λ rows. (e : EventId) → HasEvent (lengths order.now) e
        → row_at (lengths order.now) rows.words (row_of (lengths order.now) e)
        ≡ clock order.now e.process e.position) }
    ensures begins { IfOk result (λ rows.
        AreWithinClosed (lengths order.now) (pulls_of_order order.now) rows.words) }
{
    let zeros = [0; MOST_PROCESSES];
    order_rows_above(alloc, order, &zeros[..order.shape().procs() as usize])
}

/// The rows of `order_rows`, raised to the vector where they lie below it: so it is the bottom's.
/// A table may begin from them where each of its closed vectors is at or above the vector.
pub fn order_rows_above(alloc: Global, order: &Order, vector: &[u64]) -> Result<Floor, NoMemory>
    requires { IsVector (lengths order.now) vector.now }
    ensures lens { IfOk result (λ rows. rows.lens ≡ lengths order.now) }
    ensures bottom { IfOk result (λ rows.
        row_at (lengths order.now) rows.words 0 ≡ vector.now) }
    ensures events { IfOk result (λ rows. (e : EventId) → HasEvent (lengths order.now) e
        → row_at (lengths order.now) rows.words (row_of (lengths order.now) e)
        ≡ max_cut (clock order.now e.process e.position) vector.now) }
    ensures begins { (pulls : List Pull) → AreAbove order.now pulls vector.now → IfOk result
        (λ rows. AreWithinClosed (lengths order.now) pulls rows.words) }
{
    let shape = order.shape();
    let procs = shape.procs() as usize;
    let none = [0; MOST_PROCESSES];
    let none = &none[..procs];
    let (mut least, mut room, mut wide) = (
        [0; MOST_PROCESSES],
        [0; MOST_PROCESSES],
        [0; MOST_PROCESSES],
    );
    let (least, room) = (&mut least[..procs], &mut room[..procs]);
    let wide = &mut wide[..procs];
    narrow(vector, least);
    let mut words = Vec::with_capacity(alloc, (shape.events() as usize + 1) * procs)?;
    // A row is raised in 32 bits, which a processor does for four words at a time.
    for row in 0..shape.events() + 1 {
        room.copy_from_slice(least);
        join_words(clock_of(order, row, none), room);
        widen(room, wide);
        words.extend_from_slice(wide)?;
    }
    Floor::from_words(alloc, shape, words)
}

/// The clock of a row's event, and `none` for the bottom's row.
fn clock_of<'a>(order: &'a Order, row: u32, none: &'a [u32]) -> &'a [u32]
    requires row { row ≤ sum (lengths order.now) }
    requires width { length none.now ≡ length order.now }
    ensures width { length result.now ≡ length order.now }
    ensures bottom { row ≡ 0 → result.now ≡ none.now }
    ensures event { (e : EventId) → HasEvent (lengths order.now) e
        → row_of (lengths order.now) e ≡ row
        → result.now ≡ clock order.now e.process e.position }
{
    match order.shape().event_of(row) {
        Some(event) => order.clock(event),
        None => none,
    }
}

/// The same numbers in 64 bits each, in memory of their own.
fn wide_words(alloc: Global, from: &[u32]) -> Result<Vec<u64>, NoMemory>
    ensures { IfOk result (λ words. words.items ≡ from.now) }
{
    let mut words = Vec::with_capacity(alloc, from.len())?;
    let mut piece = [0; PIECE];
    while words.len() < from.len() {
        let first = words.len();
        let size = (from.len() - first).min(PIECE);
        let piece = &mut piece[..size];
        widen(&from[first..first + size], piece);
        words.extend_from_slice(piece)?;
    }
    Ok(words)
}

/// Makes `into` the numbers of the row.
fn widen(row: &[u32], into: &mut [u64])
    requires { length row.now ≡ length into.old }
    ensures { into.new ≡ row.now }
{
    for process in 0..row.len() {
        into[process] = row[process] as u64;
    }
}

/// Makes `into` the numbers of the vector, which fit 32 bits.
fn narrow(vector: &[u64], into: &mut [u32])
    requires width { length vector.now ≡ length into.old }
    requires small { (i : ℕ) → slice_index vector.now i < 2 ^ 32 }
    ensures { into.new ≡ vector.now }
{
    for process in 0..vector.len() {
        into[process] = vector[process] as u32;
    }
}
