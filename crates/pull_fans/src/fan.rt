//! The pulls from one process, held side by side.
ghost use Rattle.std.specs.Prelude.{◌≡◌, ◌⊎◌, ℕ, ◌+◌, ◌*◌, ◌^◌, ◌<◌, ◌≤◌, [], ◌∷◌, ◌++◌, length};
ghost use Rattle.std.specs.Prelude.{replicate, slice_index, slice_range, get_or, IfOk, OnOk, OnErr};
ghost use Rattle.std.specs.Prelude.{IsTrue, IsFalse};
ghost use Rattle.pull_fans.specs.Fans.{HasRow, HaveRows, IsToAll, pulls_of_fan, pulls_of_fans};
ghost use Rattle.pull_fans.specs.inside.Fans.{entry_of, HasProcessRows, AreFanRows};
ghost use Rattle.pull_fans.specs.inside.Fans.{IsToOthers};
ghost use Rattle.pull_fans.specs.inside.Growing.{kept_tables};
ghost use Rattle.pull_fans.specs.inside.Asks.{AreInTurn, AreRaisedIn, AreRaised, stretch_of};
ghost use Rattle.pull_system.specs.Vector.{IsMaximum};

use crate::layout::{Layout, layout_of};
use crate::narrow::push_narrow;
use pota_base::{List, NoMemory};
use pull_system::Pull;
use std::alloc::Global;
use std::marker::Model;

/// The pulls from one process, side by side: for each value of its component one row with what
/// each of them asks for. Contracts see one table per target.
#[derive(Debug, Drop)]
pub struct Fan {
    src: u32,
    targets: List<u32>,
    layout: Layout,
    /// How many entries a row has.
    width: usize,
    /// How many rows there are. Rows without entries are not counted.
    values: usize,
    /// Row by row, as the layout says.
    entries: Vec<u16>,
}

impl Model for Fan {
    ghost use Rattle.pull_fans.specs.Fans.{FanView};
    ghost use Rattle.pull_fans.specs.inside.Fans.{AreEntries};
    ghost use Rattle.pull_fans.specs.inside.Layouts.{tables_in, IsLaidOut, AreZeroAt};

    ghost Value = { FanView };

    ghost view = { λ fan. record {
      src = fan.src;
      targets = fan.targets;
      tables = tables_in fan.layout fan.targets fan.width fan.values fan.entries.items;
    } };

    ghost invariant = { λ fan. AreEntries fan.width fan.values fan.entries.items
        × IsLaidOut fan.layout fan.src fan.targets fan.width
        × AreZeroAt fan.layout fan.src fan.width fan.values fan.entries.items };
}

impl Fan {
    /// No rows yet, but room for so many.
    pub fn new(alloc: Global, src: u32, targets: List<u32>, room: usize) -> Result<Fan, NoMemory>
        ensures { IfOk result (λ fan. fan ≡ record {
          src = src;
          targets = targets;
          tables = replicate (length targets) [];
        }) }
    {
        let layout = layout_of(src, targets.as_slice());
        let width = layout.width(targets.as_slice());
        let entries = Vec::with_capacity(alloc, room.saturating_mul(width))?;
        Ok(Fan {
            src,
            targets,
            layout,
            width,
            values: 0,
            entries,
        })
    }

    /// Puts one number of the row behind each table.
    pub fn push_row(&mut self, row: &[u32]) -> Result<(), NoMemory>
        requires width { length row.now ≡ length self.old.targets }
        requires entries { (i : ℕ) → slice_index row.now i < 2 ^ 16 }
        ensures source { self.new.src ≡ self.old.src }
        ensures targets { self.new.targets ≡ self.old.targets }
        ensures row { OnOk result (HasRow row.now self.old.tables self.new.tables) }
        ensures err { OnErr result (self.new ≡ self.old) }
    {
        if self.targets.is_empty() {
            return Ok(());
        }
        self.layout.push_row(&mut self.entries, self.src, row)?;
        self.values += 1;
        Ok(())
    }

    /// Puts one number of each of so many rows behind each table, in a fan to all processes.
    pub fn push_rows(&mut self, rows: &[u32], count: usize) -> Result<(), NoMemory>
        requires all { IsToAll self.old (length self.old.targets) }
        requires process { self.old.src < length self.old.targets }
        requires size { length rows.now ≡ count * length self.old.targets }
        requires entries { (i : ℕ) → slice_index rows.now i < 2 ^ 16 }
        ensures source { self.new.src ≡ self.old.src }
        ensures targets { self.new.targets ≡ self.old.targets }
        ensures rows { OnOk result (HaveRows rows.now count self.old.tables self.new.tables) }
        ensures err { OnErr result (self.new ≡ self.old) }
    {
        push_narrow(&mut self.entries, rows)?;
        self.values += count;
        Ok(())
    }

    /// The fan of one pull.
    pub fn of_pull(alloc: Global, pull: &Pull) -> Result<Fan, NoMemory>
        requires { (x : ℕ) → slice_index pull.now.table x < 2 ^ 16 }
        ensures { IfOk result (λ fan. pulls_of_fan fan ≡ pull.now ∷ []) }
    {
        let mut targets = List::with_capacity(alloc, 1)?;
        targets.push(pull.dst)?;
        let mut entries = Vec::new(alloc);
        push_narrow(&mut entries, pull.table.as_slice())?;
        Ok(Fan {
            src: pull.src,
            targets,
            layout: Layout::ByTarget,
            width: 1,
            values: pull.table.len(),
            entries,
        })
    }

    /// Keeps the first so many rows.
    pub(crate) fn keep(&mut self, count: usize)
        ensures { self.new ≡ record self.old { tables = kept_tables count self.old } }
    {
        if self.values <= count {
            return;
        }
        self.entries.truncate(count * self.width);
        self.values = count;
    }

    /// Whether there are no pulls.
    pub(crate) fn is_empty(&self) -> bool
        ensures none { IsTrue result → self.now ≡ record self.now { targets = []; tables = [] } }
        ensures some { IsFalse result → 0 < length self.now.targets }
    {
        self.targets.as_slice().is_empty()
    }

    /// The process that the pulls come from.
    pub fn source(&self) -> u32
        ensures { result ≡ self.now.src }
    {
        self.src
    }

    /// The processes that the pulls go to.
    pub fn targets(&self) -> &[u32]
        ensures { result.now ≡ self.now.targets }
    {
        self.targets.as_slice()
    }

    /// What the pull to the target at this index asks for at a value.
    pub(crate) fn entry(&self, index: usize, x: usize) -> u16
        requires target { index < length self.now.targets }
        requires value { x < length (get_or self.now.tables index []) }
        ensures { result ≡ entry_of self.now index x }
    {
        self.entries[x * self.width + self.layout.place(self.targets.as_slice(), index)]
    }

    /// The rows with what the pulls ask for, one after the other: of one entry per process, where
    /// the pulls go to each process in turn, or to each but their source.
    pub(crate) fn rows(&self) -> &[u16]
        ensures { (procs count : ℕ) → HasProcessRows self.now procs count
            → AreFanRows self.now procs count result.now }
    {
        self.entries.as_slice()
    }

    /// Whether the pulls go to each process in turn.
    fn goes_to_all(&self, procs: u32) -> bool
        ensures { IsTrue result → IsToAll self.now procs }
    {
        let targets = self.targets.as_slice();
        for i in 0..targets.len() {
            if targets[i] as usize != i {
                return false;
            }
        }
        targets.len() == procs as usize
    }

    /// Whether the pulls go to each process in turn, or to each but their source.
    pub(crate) fn goes_around(&self, procs: u32) -> bool
        ensures { IsTrue result → IsToAll self.now procs ⊎ IsToOthers self.now procs }
    {
        match self.layout {
            Layout::ByTarget => self.goes_to_all(procs),
            Layout::ByProcess => self.width == procs as usize,
        }
    }

    /// Raises the rows of so many values, with one entry per process, to what the pulls ask there.
    pub(crate) fn raise(&self, values: usize, procs: usize, rows: &mut [u16])
        requires values { (i : ℕ) → i < length self.now.targets
            → length (get_or self.now.tables i []) ≡ values }
        requires targets { (i : ℕ) → i < length self.now.targets
            → slice_index self.now.targets i < procs }
        requires room { values * procs ≤ length rows.old }
        ensures { AreRaised self.now procs values rows.old rows.new }
    {
        let targets = self.targets.as_slice();
        let mut first = 0;
        while first < targets.len() {
            let end = run_end(targets, first);
            self.raise_run(first, end, values, procs, rows);
            first = end;
        }
    }

    /// Raises these rows to what the pulls to the targets of one run ask there: at each value one
    /// piece of the row to one piece of the entries, without a place to look up for each target.
    fn raise_run(&self, first: usize, end: usize, values: usize, procs: usize, rows: &mut [u16])
        requires run { AreInTurn self.now.targets first end }
        requires values { (i : ℕ) → i < length self.now.targets
            → length (get_or self.now.tables i []) ≡ values }
        requires targets { (i : ℕ) → i < length self.now.targets
            → slice_index self.now.targets i < procs }
        requires room { values * procs ≤ length rows.old }
        ensures { AreRaisedIn self.now procs (stretch_of first end) values rows.old rows.new }
    {
        let targets = self.targets.as_slice();
        let target = targets[first] as usize;
        let place = self.layout.place(targets, first);
        for x in 0..values {
            let row = row_of(self.entries.as_slice(), x, self.width);
            let asked = &row[place..place + (end - first)];
            let begin = x * procs + target;
            raise_each(&mut rows[begin..begin + asked.len()], asked);
        }
    }

    /// Appends the pulls, in the order of their targets.
    fn push_pulls(&self, alloc: Global, pulls: &mut List<Pull>) -> Result<(), NoMemory>
        ensures { OnOk result (pulls.new ≡ pulls.old ++ pulls_of_fan self.now) }
    {
        for (index, &dst) in self.targets.as_slice().iter().enumerate() {
            let table = self.table(alloc, index)?;
            let src = self.src;
            pulls.push(Pull { src, dst, table })?;
        }
        Ok(())
    }

    /// The table of the pull to the target at this index.
    fn table(&self, alloc: Global, index: usize) -> Result<List<u32>, NoMemory>
        requires { index < length self.now.targets }
        ensures { IfOk result (λ table. table ≡ get_or self.now.tables index []) }
    {
        let place = self.layout.place(self.targets.as_slice(), index);
        let mut table = List::with_capacity(alloc, self.values)?;
        for x in 0..self.values {
            table.push(self.entries[x * self.width + place] as u32)?;
        }
        Ok(table)
    }
}

/// The pulls of all fans, in their order, each with a table of its own.
pub fn pulls_of(alloc: Global, fans: &[Fan]) -> Result<List<Pull>, NoMemory>
    ensures { IfOk result (λ pulls. pulls ≡ pulls_of_fans fans.now) }
{
    let mut pulls = List::new(alloc);
    for fan in fans {
        fan.push_pulls(alloc, &mut pulls)?;
    }
    Ok(pulls)
}

/// The row of a value among rows of one size.
pub(crate) fn row_of(rows: &[u16], x: usize, size: usize) -> &[u16]
    requires { x * size + size ≤ length rows.now }
    ensures row { result.now ≡ slice_range rows.now (x * size) (x * size + size) }
    ensures size { length result.now ≡ size }
{
    &rows[x * size..x * size + size]
}

/// The index behind the run of consecutive targets that begins at this one.
fn run_end(targets: &[u32], first: usize) -> usize
    requires { first < length targets.now }
    ensures { AreInTurn targets.now first result }
{
    for i in first + 1..targets.len() {
        if targets[i] as usize != targets[first] as usize + (i - first) {
            return i;
        }
    }
    targets.len()
}

/// Raises each word to what is asked of it.
fn raise_each(row: &mut [u16], asked: &[u16])
    requires { length asked.now ≡ length row.old }
    ensures { IsMaximum row.old asked.now row.new }
{
    for i in 0..asked.len() {
        row[i] = row[i].max(asked[i]);
    }
}
