//! The rows of a slice in one block of words.
ghost use Rattle.std.specs.Prelude.{◌≡◌, ℕ, ◌+◌, ◌*◌, ◌<◌, [], ◌∷◌, ◌++◌, Some, None, length};
ghost use Rattle.std.specs.Prelude.{get_or, map, replicate, IfOk};
ghost use Rattle.std.specs.Prelude.{OnOk, OnErr};
ghost use Rattle.std.specs.Option.{option_copied};
ghost use Rattle.pota_base.specs.Shape.{IsShape};
ghost use Rattle.causal_order.specs.Blocks.{rows_of};
ghost use Rattle.slice_graph.specs.Words.{past_ends, filled};
ghost use Rattle.slice_graph.specs.Views.{no_row};
ghost use Rattle.slice_graph.specs.inside.Pushing.{some_row};
ghost use Rattle.slice_graph.specs.inside.Words.{block_rows, times};

use pota_base::{NoMemory, Shape};
use std::alloc::Global;
use std::marker::Model;

/// How many rows without a cut are appended at once.
const BLOCK: u32 = 16;

/// The rows of a slice, or the first of them, which are pushed in row order. All of them stand in
/// one piece of memory.
#[derive(Debug, Drop)]
pub struct CutTable {
    shape: Shape,
    /// The words of a row without a cut: each is one more than the process's length, so that no cut
    /// holds them.
    absent: Vec<u32>,
    /// How many rows there are.
    len: usize,
    words: Vec<u32>,
}

impl Model for CutTable {
    ghost use Rattle.slice_graph.specs.Views.{SliceView};
    ghost use Rattle.slice_graph.specs.Words.{cuts_in};
    ghost use Rattle.slice_graph.specs.inside.Words.{AreFilled};

    ghost Value = { SliceView };

    ghost view = { λ t. record { lens = t.shape; rows = cuts_in t.shape t.len t.words.items } };

    ghost invariant = { λ t. AreFilled t.shape t.absent.items t.len t.words.items };
}

impl CutTable {
    ghost use Rattle.slice_graph.specs.Views.{IsCut, AreCuts};
    ghost use Rattle.slice_graph.specs.inside.Words.{AreAllWords};

    /// A table without rows, with the memory for all rows of the shape.
    pub fn new(alloc: Global, shape: &Shape) -> Result<CutTable, NoMemory>
        ensures { IfOk result (λ table. table ≡ record { lens = shape.now; rows = [] }) }
    {
        let shape = shape.copy(alloc)?;
        let absent = past_ends(alloc, shape.lens())?;
        let rows = shape.events() as usize + 1;
        let words = Vec::with_capacity(alloc, rows * absent.len())?;
        Ok(CutTable {
            shape,
            absent,
            len: 0,
            words,
        })
    }

    /// The same rows, in memory of their own.
    pub fn copy(&self, alloc: Global) -> Result<CutTable, NoMemory>
        ensures { IfOk result (λ table. table ≡ self.now) }
    {
        let shape = self.shape.copy(alloc)?;
        let absent = Vec::from_slice(alloc, self.absent.as_slice())?;
        let words = Vec::from_slice(alloc, self.words.as_slice())?;
        let len = self.len;
        Ok(CutTable {
            shape,
            absent,
            len,
            words,
        })
    }

    /// How many rows there are.
    pub fn len(&self) -> usize
        ensures { result ≡ length self.now.rows }
    {
        self.len
    }

    pub fn shape(&self) -> &Shape
        ensures lens { result.now ≡ self.now.lens }
        ensures cuts { AreCuts self.now }
    {
        &self.shape
    }

    /// The words of a row. One without a cut has one more than each length.
    pub fn words(&self, row: usize) -> &[u32]
        requires { row < length self.now.rows }
        ensures words { result.now ≡ filled self.now.lens (get_or self.now.rows row no_row) }
        ensures width { length result.now ≡ length self.now.lens }
        ensures shape { IsShape self.now.lens }
    {
        let width = self.absent.len();
        let start = row * width;
        &self.words[start..start + width]
    }

    /// The words of all rows, one row behind the other.
    pub(crate) fn all_words(&self) -> &[u32]
        ensures { AreAllWords self.now result.now }
    {
        self.words.as_slice()
    }

    /// The words of a row without a cut: each is one more than the process's length.
    pub(crate) fn absent(&self) -> &[u32]
        ensures { result.now ≡ past_ends self.now.lens }
    {
        self.absent.as_slice()
    }

    /// The cut of a row.
    pub fn cut(&self, row: usize) -> Option<&[u32]>
        requires { row < length self.now.rows }
        ensures cut { option_copied result ≡ get_or self.now.rows row no_row }
        ensures cuts { AreCuts self.now }
    {
        let words = self.words(row);
        let shape = self.shape();
        if words[0] <= shape.len_of(0) {
            Some(words)
        } else {
            None
        }
    }

    /// Puts a row with a cut behind the others. Without memory for it the table is as before.
    pub fn push_cut(&mut self, cut: &[u32]) -> Result<(), NoMemory>
        requires { IsCut self.old.lens cut.now }
        ensures ok { OnOk result (self.new
            ≡ record self.old { rows = self.old.rows ++ Some cut.now ∷ [] }) }
        ensures err { OnErr result (self.new ≡ self.old) }
    {
        self.words.extend_from_slice(cut)?;
        self.len += 1;
        Ok(())
    }

    /// Puts a row without a cut behind the others. Without memory for it the table is as before.
    pub fn push_none(&mut self) -> Result<(), NoMemory>
        ensures ok { OnOk result (self.new
            ≡ record self.old { rows = self.old.rows ++ no_row ∷ [] }) }
        ensures err { OnErr result (self.new ≡ self.old) }
    {
        self.words.extend_from_slice(self.absent.as_slice())?;
        self.len += 1;
        Ok(())
    }

    /// Puts rows with cuts behind the others. Without memory for them the table is as before.
    pub(crate) fn push_cuts(&mut self, words: &[u16], count: usize) -> Result<(), NoMemory>
        requires size { length words.now ≡ count * length self.old.lens }
        requires cuts { (row : ℕ) → row < count
            → IsCut self.old.lens (get_or (rows_of (length self.old.lens) count words.now) row []) }
        ensures { OnOk result (self.new ≡ record self.old {
          rows = self.old.rows ++ map some_row (rows_of (length self.old.lens) count words.now);
        }) }
    {
        push_wide(&mut self.words, words)?;
        self.len += count;
        Ok(())
    }

    /// Puts so many rows without a cut behind the others: many of them by blocks, and the rest one
    /// after the other.
    pub(crate) fn push_nones(&mut self, count: u32) -> Result<(), NoMemory>
        ensures { OnOk result (self.new
            ≡ record self.old { rows = self.old.rows ++ replicate count no_row }) }
    {
        self.push_blocks(count / BLOCK)?;
        self.push_few(count % BLOCK)
    }

    /// Puts so many rows without a cut behind the others, one after the other.
    fn push_few(&mut self, count: u32) -> Result<(), NoMemory>
        ensures { OnOk result (self.new
            ≡ record self.old { rows = self.old.rows ++ replicate count no_row }) }
    {
        for _row in 0..count {
            self.push_none()?;
        }
        Ok(())
    }

    /// Puts so many blocks of rows without a cut behind the others.
    fn push_blocks(&mut self, count: u32) -> Result<(), NoMemory>
        ensures { OnOk result (self.new
            ≡ record self.old { rows = self.old.rows ++ replicate (count * block_rows) no_row }) }
    {
        if count == 0 {
            return Ok(());
        }
        let block = block_of(*self.words.allocator(), self.absent())?;
        for _block in 0..count {
            self.push_block(block.as_slice())?;
        }
        Ok(())
    }

    /// Puts a block of rows without a cut behind the others.
    fn push_block(&mut self, block: &[u32]) -> Result<(), NoMemory>
        requires { block.now ≡ times block_rows (past_ends self.old.lens) }
        ensures { OnOk result (self.new
            ≡ record self.old { rows = self.old.rows ++ replicate block_rows no_row }) }
    {
        self.words.extend_from_slice(block)?;
        self.len += BLOCK as usize;
        Ok(())
    }
}

/// The words of a row, so many times that they are a block.
fn block_of(alloc: Global, row: &[u32]) -> Result<Vec<u32>, NoMemory>
    ensures { IfOk result (λ block. block.items ≡ times block_rows row.now) }
{
    let mut block = Vec::new(alloc);
    for _row in 0..BLOCK {
        block.extend_from_slice(row)?;
    }
    Ok(block)
}

/// Appends the numbers, in 32 bits. Without memory for all of them none is appended.
fn push_wide(words: &mut Vec<u32>, from: &[u16]) -> Result<(), NoMemory>
    ensures ok { OnOk result (words.new.items ≡ words.old.items ++ from.now) }
    ensures err { OnErr result (words.new.items ≡ words.old.items) }
{
    let begin = words.len();
    words.resize(begin + from.len(), 0)?;
    widen(from, &mut words[begin..]);
    Ok(())
}

/// Makes `into` the same numbers, in 32 bits.
fn widen(from: &[u16], into: &mut [u32])
    requires { length from.now ≡ length into.old }
    ensures { into.new ≡ from.now }
{
    for i in 0..from.len() {
        into[i] = from[i] as u32;
    }
}

/// One more than each length.
fn past_ends(alloc: Global, lens: &[u32]) -> Result<Vec<u32>, NoMemory>
    requires { IsShape lens.now }
    ensures { IfOk result (λ words. words.items ≡ past_ends lens.now) }
{
    let mut words = Vec::with_capacity(alloc, lens.len())?;
    for len in lens {
        words.push(*len + 1)?;
    }
    Ok(words)
}
