//! A slice: its rows, and the maximum of them.
ghost use Rattle.std.specs.Prelude.{◌≡◌, ℕ, ◌+◌, ◌<◌, ◌≤◌, ◌↔◌, [], ◌∷◌, None, length, sum, get_or};
ghost use Rattle.std.specs.Prelude.{replicate, IsTrue, IfOk, MatchOption, option_map};
ghost use Rattle.std.specs.Option.{option_copied};
ghost use Rattle.pota_base.specs.Shape.{HasEvent};
ghost use Rattle.run_model.specs.Cut.{Cut as CutOfRun, Clocks, count, max_cut, lengths};
ghost use Rattle.run_model.specs.Consistent.{IsOrder};
ghost use Rattle.run_model.specs.Sublattice.{IsGreatest, Having};
ghost use Rattle.run_model.specs.Slice.{Cuts, IsLeastOf};
ghost use Rattle.slice_graph.specs.Words.{past_ends};
ghost use Rattle.slice_graph.specs.Views.{AreCuts, joined_onto, joined_rows, slice_of, no_row};

use crate::cuts::{is_within, join_words, set_words};
use crate::table::CutTable;
use cut_lattice::Cut;
use pota_base::{EventId, MOST_PROCESSES, NoMemory, Shape};
use std::alloc::Global;
use std::marker::Model;

/// A slice (Mittal and Garg): its least cut, and for each event the least of its cuts that has the
/// event. Contracts see the lengths of the processes and the rows, and say of its cuts what holds
/// by each order that the slice fits.
#[derive(Debug, Drop)]
pub struct Slice {
    table: CutTable,
    /// The maximum of all rows, which is the greatest cut of a slice that has cuts.
    top: Cut,
}

impl Model for Slice {
    ghost use Rattle.std.specs.Prelude.{◌≡◌};
    ghost use Rattle.slice_graph.specs.Views.{SliceView, HasAllRows, joined_rows};

    ghost Value = { SliceView };

    ghost view = { λ s. s.table };

    ghost invariant = { λ s. HasAllRows s.table × (s.top ≡ joined_rows s.table) };
}

impl Slice {
    ghost use Rattle.slice_graph.specs.Views.{HasAllRows, IsCut, IsRow, HasLasts};
    ghost use Rattle.slice_graph.specs.Words.{row_words};
    ghost use Rattle.slice_graph.specs.inside.Words.{AreAllWords, AreEventWords};
    ghost use Rattle.slice_graph.specs.Fitting.{FitsOrder};

    /// The slice of these rows.
    pub fn of(alloc: Global, table: CutTable) -> Result<Slice, NoMemory>
        requires { length table.rows ≡ sum table.lens + 1 }
        ensures { IfOk result (λ slice. slice ≡ table) }
    {
        let top = join_rows(alloc, &table)?;
        Ok(Slice { table, top })
    }

    /// The slice of these rows, whose maximum is known already.
    pub fn with_top(table: CutTable, top: Cut) -> Slice
        requires count { length table.rows ≡ sum table.lens + 1 }
        requires top { top ≡ joined_rows table }
        ensures { result ≡ table }
    {
        // By its clause the rows of the table are cuts.
        let _shape = table.shape();
        Slice { table, top }
    }

    /// The slice of no cut.
    pub fn empty(alloc: Global, shape: &Shape) -> Result<Slice, NoMemory>
        ensures { IfOk result (λ slice. slice
            ≡ record { lens = shape.now; rows = replicate (sum shape.now + 1) no_row }) }
    {
        let mut table = CutTable::new(alloc, shape)?;
        table.push_nones(shape.events() + 1)?;
        Ok(Slice::with_top(table, Cut::new(alloc, shape.procs())?))
    }

    /// The same slice, in memory of its own.
    pub fn copy(&self, alloc: Global) -> Result<Slice, NoMemory>
        ensures { IfOk result (λ slice. slice ≡ self.now) }
    {
        Slice::of(alloc, self.table.copy(alloc)?)
    }

    pub fn shape(&self) -> &Shape
        ensures lens { result.now ≡ self.now.lens }
        ensures rows { HasAllRows self.now }
    {
        self.table.shape()
    }

    /// Whether it has no cut.
    pub fn is_empty(&self) -> bool
        ensures bottom { IsTrue result ↔ (get_or self.now.rows 0 no_row ≡ None) }
        ensures cuts { (o : Clocks) → FitsOrder o self.now → IsTrue result
            ↔ ((c : CutOfRun) → Cuts o (slice_of self.now) c → ⊥) }
    {
        self.bottom().is_none()
    }

    /// Its least cut. There is none exactly where the slice has no cut.
    pub fn bottom(&self) -> Option<&[u32]>
        ensures bottom { option_copied result ≡ (slice_of self.now).bottom }
        ensures within { IsRow self.now.lens (option_copied result) }
        ensures least { (o : Clocks) → FitsOrder o self.now
            → IsLeastOf (Cuts o (slice_of self.now)) (option_copied result) }
    {
        self.row(0)
    }

    /// Its greatest cut. There is none exactly where the slice has no cut.
    pub fn top(&self) -> Option<&[u32]>
        ensures top { option_copied result
            ≡ option_map (λ _. joined_rows self.now) (slice_of self.now).bottom }
        ensures greatest { (o : Clocks) → IsOrder o → FitsOrder o self.now
            → MatchOption (option_copied result) ((c : CutOfRun) → Cuts o (slice_of self.now) c → ⊥)
            (IsGreatest (Cuts o (slice_of self.now))) }
    {
        if self.is_empty() {
            None
        } else {
            Some(self.top.as_slice())
        }
    }

    /// Its least cut that has the event. There is none exactly where no cut of the slice has it.
    pub fn least_with(&self, event: EventId) -> Option<&[u32]>
        requires { HasEvent self.now.lens event }
        ensures row { option_copied result ≡ (slice_of self.now).row event.process event.position }
        ensures within { IsRow self.now.lens (option_copied result) }
        ensures least { (o : Clocks) → FitsOrder o self.now
            → IsLeastOf (Having (Cuts o (slice_of self.now)) event.process event.position)
            (option_copied result) }
    {
        self.row(self.shape().row_of(event))
    }

    /// The cut of a row. Row 0 is the bottom's.
    pub fn row(&self, row: u32) -> Option<&[u32]>
        requires { row ≤ sum self.now.lens }
        ensures row { option_copied result ≡ get_or self.now.rows row no_row }
        ensures within { IsRow self.now.lens (option_copied result) }
    {
        self.table.cut(row as usize)
    }

    /// The words of the row of the last of the first events of a process, and those of the bottom
    /// where there is no event. A row without a cut has one more than each length, so that no cut
    /// holds it.
    pub fn words(&self, process: u32, position: u32) -> &[u32]
        requires process { process < length self.now.lens }
        requires position { position ≤ count self.now.lens process }
        ensures words { result.now ≡ row_words self.now process position }
        ensures width { length result.now ≡ length self.now.lens }
    {
        if position == 0 {
            return self.table.words(0);
        }
        let row = self.shape().row_of(EventId { process, position });
        self.table.words(row as usize)
    }

    /// The words of all rows, one row behind the other. The bottom's row comes first.
    pub(crate) fn all_words(&self) -> &[u32]
        ensures { AreAllWords self.now result.now }
    {
        self.table.all_words()
    }

    /// The words of the rows of all events of a process, one row behind the other.
    pub(crate) fn words_of_events(&self, process: u32) -> &[u32]
        requires { process < length self.now.lens }
        ensures { AreEventWords self.now process result.now }
    {
        let shape = self.shape();
        let len = shape.len_of(process);
        if len == 0 {
            return &[];
        }
        let width = shape.procs() as usize;
        let first = shape.row_of(EventId {
            process,
            position: 1,
        }) as usize;
        &self.all_words()[first * width..(first + len as usize) * width]
    }

    /// The words of a row without a cut: each is one more than the process's length.
    pub fn absent(&self) -> &[u32]
        ensures { result.now ≡ past_ends self.now.lens }
    {
        self.table.absent()
    }

    /// Whether the slice has the cut. It takes no memory.
    pub fn has(&self, cut: &Cut) -> bool
        requires { IsCut self.now.lens cut.now }
        ensures lasts { IsTrue result ↔ HasLasts self.now cut.now }
        ensures cuts { (o : Clocks) → FitsOrder o self.now → IsTrue result
            ↔ Cuts o (slice_of self.now) cut.now }
    {
        self.holds_lasts(cut.as_slice())
    }

    /// Whether the slice has the final cut. It takes no memory.
    pub fn has_final(&self) -> bool
        ensures lasts { IsTrue result ↔ HasLasts self.now self.now.lens }
        ensures cuts { (o : Clocks) → FitsOrder o self.now → IsTrue result
            ↔ Cuts o (slice_of self.now) (lengths o) }
    {
        self.holds_lasts(self.shape().lens())
    }

    /// Whether a cut with these counts holds the rows of the last events that it has.
    fn holds_lasts(&self, counts: &[u32]) -> bool
        requires { IsCut self.now.lens counts.now }
        ensures lasts { IsTrue result ↔ HasLasts self.now counts.now }
        ensures cuts { (o : Clocks) → FitsOrder o self.now → IsTrue result
            ↔ Cuts o (slice_of self.now) counts.now }
    {
        for process in 0..self.shape().procs() {
            if !is_within(self.words(process, counts[process as usize]), counts) {
                return false;
            }
        }
        true
    }
}

/// The maximum of all rows that have a cut.
fn join_rows(alloc: Global, table: &CutTable) -> Result<Cut, NoMemory>
    ensures joined { IfOk result (λ top. top ≡ joined_rows table.now) }
    ensures cuts { AreCuts table.now }
{
    let procs = table.shape().procs();
    let mut top = [0; MOST_PROCESSES];
    let top = &mut top[..procs as usize];
    for row in 0..table.len() {
        join_row(table, row, top);
    }
    let mut cut = Cut::new(alloc, procs)?;
    set_words(top, &mut cut);
    Ok(cut)
}

/// Makes `into` its maximum with the cut of a row that has one.
fn join_row(table: &CutTable, row: usize, into: &mut [u32])
    requires row { row < length table.now.rows }
    requires width { length into.old ≡ length table.now.lens }
    ensures joined { into.new ≡ joined_onto into.old (get_or table.now.rows row no_row ∷ []) }
    ensures width { length into.new ≡ length table.now.lens }
{
    if let Some(cut) = table.cut(row) {
        join_words(cut, into);
    }
}
