ghost use Rattle.std.specs.Prelude.{◌≡◌, ◌+◌, ◌-◌, ◌*◌, ◌^◌, ◌≤◌, ◌<◌, length, sum, take};
ghost use Rattle.std.specs.Prelude.{slice_index, slice_set, max, IfOk, OnOk, ◌++◌};
ghost use Rattle.pota_base.specs.Shape.{IsShape};
ghost use Rattle.pull_system.specs.Rows.{start_of, starts, row_at, row_block};
ghost use Rattle.pull_system.specs.Growth.{DidNotFall, grown_words};

use pota_base::{EventId, MOST_PROCESSES, NoMemory, Shape};
use std::alloc::Global;
use std::marker::Model;

/// One vector per row of a shape. Contracts see the lengths and the words row by row.
#[derive(Debug, Drop)]
pub struct Rows {
    shape: Shape,
    /// In 16 bits, which hold every word, since a run has few events.
    words: Vec<u16>,
}

impl Model for Rows {
    ghost use Rattle.pull_system.specs.Rows.{RowsView, AreRows};

    ghost Value = { RowsView };

    ghost view = { λ rows. record { lens = rows.shape; words = rows.words.items } };

    ghost invariant = { λ rows. AreRows record { lens = rows.shape; words = rows.words.items } };
}

impl Rows {
    ghost use Rattle.pull_system.specs.Rows.{AreRows, place_of};

    /// Each row at its start.
    pub fn new(alloc: Global, shape: &Shape) -> Result<Rows, NoMemory>
        ensures { IfOk result
            (λ rows. rows ≡ record { lens = shape.now; words = starts shape.now }) }
    {
        let shape = shape.copy(alloc)?;
        let words = start_words(alloc, &shape)?;
        Ok(Rows { shape, words })
    }

    /// Rows of a shape with these words, row by row.
    pub fn from_words(alloc: Global, shape: &Shape, words: Vec<u16>) -> Result<Rows, NoMemory>
        requires { length words.items ≡ (sum shape.now + 1) * length shape.now }
        ensures { IfOk result (λ rows. rows ≡ record { lens = shape.now; words = words.items }) }
    {
        let shape = shape.copy(alloc)?;
        Ok(Rows { shape, words })
    }

    /// The same rows, in memory of their own.
    pub fn copy(&self, alloc: Global) -> Result<Rows, NoMemory>
        ensures { IfOk result (λ rows. rows ≡ self.now) }
    {
        let shape = self.shape.copy(alloc)?;
        let words = Vec::from_slice(alloc, self.words.as_slice())?;
        Ok(Rows { shape, words })
    }

    /// The rows of a run after its shape has grown: row 0 and the rows of the old events as they
    /// were, and each new event's row at its start.
    pub fn grown(alloc: Global, old: &Rows, shape: &Shape) -> Result<Rows, NoMemory>
        requires { DidNotFall old.now.lens shape.now }
        ensures { IfOk result (λ rows.
            rows ≡ record { lens = shape.now; words = grown_words shape.now old.now }) }
    {
        // The look opens the old rows: their words are those of their shape.
        let _ = &old.words;
        let shape = shape.copy(alloc)?;
        let words = grow_words(alloc, &shape, old)?;
        Ok(Rows { shape, words })
    }

    pub fn shape(&self) -> &Shape
        ensures shape { result.now ≡ self.now.lens }
        ensures rows { AreRows self.now }
    {
        &self.shape
    }

    /// The words of all rows, row by row.
    pub fn as_words(&self) -> &[u16]
        ensures words { result.now ≡ self.now.words }
        ensures rows { AreRows self.now }
    {
        self.words.as_slice()
    }

    /// The words of one row.
    pub fn row(&self, row: u32) -> &[u16]
        requires { row ≤ sum self.now.lens }
        ensures words { result.now ≡ row_at self.now.lens self.now.words row }
        ensures size { length result.now ≡ length self.now.lens }
    {
        &self.words[self.place(row, 0)..self.place(row, 0) + self.shape.procs() as usize]
    }

    /// The word of a process in a row.
    pub fn word(&self, row: u32, process: u32) -> u64
        requires row { row ≤ sum self.now.lens }
        requires process { process < length self.now.lens }
        ensures { result ≡ slice_index self.now.words (place_of self.now.lens row process) }
    {
        self.words[self.place(row, process)] as u64
    }

    /// Makes the word its maximum with the value.
    pub fn raise(&mut self, row: u32, process: u32, value: u64)
        requires row { row ≤ sum self.old.lens }
        requires process { process < length self.old.lens }
        requires value { value < 2 ^ 16 }
        ensures lens { self.new.lens ≡ self.old.lens }
        ensures words { let place = place_of self.old.lens row process in self.new.words
            ≡ slice_set self.old.words place (max (slice_index self.old.words place) value) }
    {
        let place = self.place(row, process);
        self.words[place] = self.words[place].max(value as u16);
    }

    /// Where the word of a process in a row stands among the words.
    fn place(&self, row: u32, process: u32) -> usize
        requires row { row ≤ sum self.now.lens }
        requires process { process < length self.now.lens }
        ensures place { result ≡ place_of self.now.lens row process }
        ensures there { result < length self.now.words }
    {
        row as usize * self.shape.procs() as usize + process as usize
    }
}

/// The starts of all rows of the shape.
fn start_words(alloc: Global, shape: &Shape) -> Result<Vec<u16>, NoMemory>
    ensures { IfOk result (λ words. words.items ≡ starts shape.now) }
{
    let mut words = Vec::with_capacity(
        alloc,
        (shape.events() as usize + 1) * shape.procs() as usize,
    )?;
    for row in 0..=shape.events() {
        push_start(&mut words, shape.lens(), row)?;
    }
    Ok(words)
}

/// Appends the start of a row: zeros, with what is left of the row's number at its process.
fn push_start(words: &mut Vec<u16>, lens: &[u32], row: u32) -> Result<(), NoMemory>
    requires { IsShape lens.now }
    ensures { OnOk result (words.new.items ≡ words.old.items ++ start_of lens.now row) }
{
    let zeros = [0; MOST_PROCESSES];
    let begin = words.len();
    words.extend_from_slice(&zeros[..lens.len()])?;
    let mut left = row;
    for (process, &len) in lens.iter().enumerate() {
        if left <= len {
            words[begin + process] = left as u16;
            return Ok(());
        }
        left -= len;
    }
    Ok(())
}

/// The words of the rows after the shape has grown. The rows that a process had stand together.
fn grow_words(alloc: Global, shape: &Shape, old: &Rows) -> Result<Vec<u16>, NoMemory>
    requires { DidNotFall old.now.lens shape.now }
    ensures { IfOk result (λ words. words.items ≡ grown_words shape.now old.now) }
{
    let mut words = Vec::with_capacity(
        alloc,
        (shape.events() as usize + 1) * shape.procs() as usize,
    )?;
    words.extend_from_slice(old.row(0))?;
    for process in 0..shape.procs() {
        push_kept(&mut words, old, process)?;
        push_new(&mut words, shape, process, old.shape().len_of(process))?;
    }
    Ok(words)
}

/// Appends the rows of a process as they were.
fn push_kept(words: &mut Vec<u16>, old: &Rows, process: u32) -> Result<(), NoMemory>
    requires { process < length old.now.lens }
    ensures { OnOk result (words.new.items ≡ words.old.items
        ++ row_block (row_at old.now.lens old.now.words) (sum (take process old.now.lens) + 1)
        (slice_index old.now.lens process)) }
{
    let shape = old.shape();
    let count = shape.len_of(process);
    if count == 0 {
        return Ok(());
    }
    let position = 1;
    let first = shape.row_of(EventId { process, position });
    push_block(words, old, first, count)
}

/// Appends rows as they were, which stand together.
fn push_block(words: &mut Vec<u16>, old: &Rows, first: u32, count: u32) -> Result<(), NoMemory>
    requires { first + count ≤ sum old.now.lens + 1 }
    ensures { OnOk result (words.new.items ≡ words.old.items
        ++ row_block (row_at old.now.lens old.now.words) first count) }
{
    let width = old.shape().procs() as usize;
    let begin = first as usize * width;
    let end = (first + count) as usize * width;
    words.extend_from_slice(&old.as_words()[begin..end])?;
    Ok(())
}

/// Appends the starts of the rows of a process behind those of its first events.
fn push_new(words: &mut Vec<u16>, shape: &Shape, process: u32, events: u32) -> Result<(), NoMemory>
    requires process { process < length shape.now }
    requires events { events ≤ slice_index shape.now process }
    ensures { OnOk result (words.new.items ≡ words.old.items
        ++ row_block (start_of shape.now) (sum (take process shape.now) + 1 + events)
        (slice_index shape.now process - events)) }
{
    for before in events..shape.len_of(process) {
        let position = before + 1;
        let row = shape.row_of(EventId { process, position });
        push_start(words, shape.lens(), row)?;
    }
    Ok(())
}
