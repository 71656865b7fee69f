//! The rows of a slice in 16 bits.
ghost use Rattle.std.specs.Prelude.{◌≡◌, ℕ, ◌^◌, ◌<◌, ◌≤◌, length, get_or, sum, slice_index, IfOk};
ghost use Rattle.run_model.specs.Cut.{Clocks};
ghost use Rattle.pull_system.specs.Rows.{row_at};
ghost use Rattle.slice_graph.specs.Views.{no_row};
ghost use Rattle.slice_graph.specs.Words.{filled};
ghost use Rattle.slice_graph.specs.Fitting.{FitsOrder};
ghost use Rattle.slice_graph.specs.PullLists.{pulls_of_slice};
ghost use Rattle.slice_graph.specs.Starting.{AreWithinClosed};

use crate::slice::Slice;
use pota_base::NoMemory;
use pull_system::Rows;
use std::alloc::Global;

/// How many words are made narrow before they are appended.
const PIECE: usize = 128;

impl Slice {
    /// The rows of the slice as `rows` gives them, in 16 bits.
    pub fn narrow_rows(&self, alloc: Global) -> Result<Rows, NoMemory>
        ensures lens { IfOk result (λ rows. rows.lens ≡ self.now.lens) }
        ensures words { IfOk result (λ rows. (row : ℕ) → row ≤ sum self.now.lens
            → row_at self.now.lens rows.words row
            ≡ filled self.now.lens (get_or self.now.rows row no_row)) }
        ensures begins { (o : Clocks) → FitsOrder o self.now → IfOk result (λ rows.
            AreWithinClosed self.now.lens (pulls_of_slice self.now) rows.words) }
    {
        let shape = self.shape();
        let words = narrow_words(alloc, self.all_words())?;
        Rows::from_words(alloc, shape, words)
    }
}

/// The same numbers in 16 bits each, which they fit, in memory of their own.
fn narrow_words(alloc: Global, from: &[u32]) -> Result<Vec<u16>, NoMemory>
    requires small { (i : ℕ) → slice_index from.now i < 2 ^ 16 }
    ensures { IfOk result (λ words. words.items ≡ from.now) }
{
    let mut words = Vec::with_capacity(alloc, from.len())?;
    let mut piece = [0; PIECE];
    while words.len() < from.len() {
        let first = words.len();
        let size = (from.len() - first).min(PIECE);
        let piece = &mut piece[..size];
        narrow(&from[first..first + size], piece);
        words.extend_from_slice(piece)?;
    }
    Ok(words)
}

/// The same numbers in 16 bits each, which they fit.
fn narrow(from: &[u32], into: &mut [u16])
    requires size { length into.old ≡ length from.now }
    requires small { (i : ℕ) → slice_index from.now i < 2 ^ 16 }
    ensures { into.new ≡ from.now }
{
    for i in 0..from.len() {
        into[i] = from[i] as u16;
    }
}
