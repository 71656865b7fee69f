ghost use Rattle.std.specs.Prelude.{◌≡◌, ◌≢◌, ℕ, ◌+◌, ◌*◌, ◌<◌, ◌≤◌, List, [], ◌∷◌, ◌++◌, true};
ghost use Rattle.std.specs.Prelude.{false, length, sum, slice_index, slice_range, slice_set};
ghost use Rattle.std.specs.Prelude.{IfOk, OnOk};
ghost use Rattle.pull_system.specs.Vector.{IsAtMost, IsMaximum};
ghost use Rattle.pull_system.specs.System.{IsSystem};
ghost use Rattle.pull_system.specs.Rows.{place_of};
ghost use Rattle.raise_machine.specs.declared.step.Step.TheVariants.{Lend};
ghost use Rattle.raise_machine.specs.Bounds.{AreBounds, word_at, has_start};
ghost use Rattle.raise_machine.specs.Machine.{is_allowed};
ghost use Rattle.bound_table.specs.inside.Asking.{IsPullStep, IsRaised, cell_of};
ghost use Rattle.bound_table.specs.Firm.{AreOwnRows, HasReachedFirm};
ghost use Rattle.bound_table.specs.Kept.{Follows, rows_from};
ghost use Rattle.bound_table.specs.Lending.{AreBothRows};
ghost use Rattle.bound_table.specs.inside.Rule.{word_count};
ghost use Rattle.bound_table.specs.Views.{KeepsClaims};

use crate::firm::Firm;
use crate::narrow::{widen, widened};
use crate::seat::{Begins, Bounded, Key, Lifts, Looks, Meets, Seat, SeenBounds, Twins};
use atomic_table::Table;
use pota_base::{MOST_PROCESSES, NoMemory};
use process_claims::Claims;
use pull_fans::System;
use pull_system::{Floor, Rows};
use std::alloc::Global;
use std::marker::Model;
use std::snapshot::Snapshot;

/// How many words are read before they are appended.
const PIECE: usize = 128;

/// One word per row and process, shared by callers that hold a seat each. Contracts see its system,
/// and which table it is.
///
/// Between any two steps each word lies between its row's start and the row's least closed vector,
/// and has reached the floor that each seat has for it. A process that a seat claims is claimed by
/// no other. No call waits for another caller.
///
/// Some of the rows may be firm: they were the least when the table was made, and so no call raises
/// them. Where the rows are the system's own all are, and they stand in 16 bits; there are no
/// shared words then.
#[derive(Drop)]
pub struct BoundTable {
    table: Table<(), SeenBounds, Key, Bounded, Global>,
    claims: Claims,
    system: System,
    firm: Firm,
    own: Option<Rows>,
}

impl Model for BoundTable {
    ghost use Rattle.std.specs.Prelude.{◌≡◌, length, sum};
    ghost use Rattle.bound_table.specs.Views.{TableView};
    ghost use Rattle.bound_table.specs.Firm.{HasReachedFirm};
    ghost use Rattle.bound_table.specs.inside.Rule.{HasWords, KeepsOwn, begun_words};
    ghost use Rattle.pota_base.specs.Shape.{IsShape};

    ghost Value = { TableView };

    ghost view = { λ table. record {
      id = table.table.shared.table_id;
      claims = table.claims;
      system = table.system;
      begun = begun_words table.table.shared.key.begins;
      firm = table.firm;
    } };

    ghost invariant = { λ table. (table.table.shared.key.system.value ≡ table.system)
        × HasWords table.table.shared.key.begins table.system.lens
        table.table.shared.table_id.words
        × IsShape table.system.lens × (table.claims.words ≡ length table.system.lens)
        × HasReachedFirm table.system (begun_words table.table.shared.key.begins) table.firm
        × KeepsOwn table.system table.table.shared.key.begins table.own };
}

impl BoundTable {
    /// The table whose words are the floor, which lies between the starts and the least closed
    /// vectors, and its first seat. No row is firm.
    pub fn new(alloc: Global, system: System, floor: &Rows) -> Result<(BoundTable, Seat), NoMemory>
        requires lens { floor.now.lens ≡ system.lens }
        requires bounds { AreBounds system floor.now.words }
        ensures system { IfOk result (λ pair. pair.0.system ≡ system) }
        ensures seat { IfOk result (λ pair. pair.1
            ≡ record { table = pair.0; floor = floor.now.words; claims = []; marks = [] }) }
    {
        let floor = widened(alloc, floor)?;
        let firm = Firm::none(system.shape());
        BoundTable::behind(alloc, system, floor, firm)
    }

    /// The table as `new` gives it, whose words are copied from the floor as it stands. The floor
    /// has reached the firm rows.
    pub fn behind(
        alloc: Global,
        system: System,
        floor: Floor,
        firm: Firm,
    ) -> Result<(BoundTable, Seat), NoMemory>
        requires lens { floor.lens ≡ system.lens }
        requires bounds { AreBounds system floor.words }
        requires firm { HasReachedFirm system floor.words firm }
        ensures system { IfOk result (λ pair. pair.0.system ≡ system) }
        ensures firm { IfOk result (λ pair. pair.0.firm ≡ firm) }
        ensures seat { IfOk result (λ pair. pair.1
            ≡ record { table = pair.0; floor = floor.words; claims = []; marks = [] }) }
    {
        let key = Key {
            system: Snapshot::of(&system),
            firm: Snapshot::of(&firm),
            begins: Begins::Shared(Snapshot::of(&floor)),
        };
        let (table, token) = Table::of_words(alloc, floor.as_words(), &key)?;
        drop(floor);
        let (claims, claimer) = Claims::new(alloc, system.shape().procs())?;
        let table = BoundTable {
            table,
            claims,
            system,
            firm,
            own: None,
        };
        Ok((table, Seat { token, claimer }))
    }

    /// The table of rows that are the system's own, which it keeps as they are, in 16 bits, and its
    /// first seat. All rows are firm.
    pub fn firm(alloc: Global, system: System, rows: Rows) -> Result<(BoundTable, Seat), NoMemory>
        requires lens { rows.lens ≡ system.lens }
        requires bounds { AreBounds system rows.words }
        requires own { AreOwnRows system rows.words }
        ensures system { IfOk result (λ pair. pair.0.system ≡ system) }
        ensures firm { IfOk result (λ pair. pair.0.firm
            ≡ record { firsts = system.lens; bottom = true }) }
        ensures seat { IfOk result (λ pair. pair.1
            ≡ record { table = pair.0; floor = rows.words; claims = []; marks = [] }) }
    {
        let firm = Firm::all(system.shape());
        let key = Key {
            system: Snapshot::of(&system),
            firm: Snapshot::of(&firm),
            begins: Begins::Own(Snapshot::of(&rows)),
        };
        // A table of shared words has one at least. Nobody reads or raises it.
        let (table, token) = Table::of_words(alloc, &[0], &key)?;
        let (claims, claimer) = Claims::new(alloc, system.shape().procs())?;
        let table = BoundTable {
            table,
            claims,
            system,
            firm,
            own: Some(rows),
        };
        Ok((table, Seat { token, claimer }))
    }

    /// Which rows are firm. The seat's floors have reached them.
    pub fn firm_rows(&self, seat: &Seat) -> &Firm
        requires fits { seat.now.table ≡ self.now }
        ensures firm { result.now ≡ self.now.firm }
        ensures reached { HasReachedFirm self.now.system seat.now.floor self.now.firm }
    {
        self.reached(seat);
        &self.firm
    }

    /// Does nothing. It tells contracts that the seat's floors are bounds, and have reached the
    /// words that the table began with.
    fn reached(&self, seat: &Seat)
        requires fits { seat.now.table ≡ self.now }
        ensures bounds { AreBounds self.now.system seat.now.floor }
        ensures begun { IsAtMost self.now.begun seat.now.floor }
    {
        // The looks open the table and the seat.
        let _ = &self.system;
        let _ = &seat.token;
    }

    /// A second seat with the same floor, which claims nothing.
    pub fn split(&self, seat: &mut Seat) -> Seat
        requires fits { seat.old.table ≡ self.now }
        ensures same { seat.new ≡ seat.old }
        ensures table { result.table ≡ seat.old.table }
        ensures floor { result.floor ≡ seat.old.floor }
        ensures claims { result.claims ≡ [] }
        ensures marks { result.marks ≡ seat.old.marks ++ seat.old.claims }
    {
        // The look opens the table: the clauses rest on what its fields have in common.
        let _ = &self.system;
        Seat {
            token: self.table.shared.split_seat::<Twins>(&mut seat.token),
            claimer: self.claims.split(&mut seat.claimer),
        }
    }

    /// Makes the seat's floor the maximum of both seats' floors, and gives it what the other claims
    /// and saw taken.
    pub fn meet(&self, seat: &mut Seat, other: Seat)
        requires fits { seat.old.table ≡ self.now }
        requires other_fits { other.table ≡ self.now }
        ensures table { seat.new.table ≡ seat.old.table }
        ensures claims { seat.new.claims ≡ seat.old.claims ++ other.claims }
        ensures marks { seat.new.marks ≡ seat.old.marks ++ other.marks }
        ensures floor { IsMaximum seat.old.floor other.floor seat.new.floor }
        ensures bounds { AreBounds self.now.system seat.new.floor }
    {
        // The look opens the table: the clauses rest on what its fields have in common.
        let _ = &self.system;
        let Seat { token, claimer } = other;
        self.table.shared.join_seat::<Meets>(&mut seat.token, token);
        self.claims.meet(&mut seat.claimer, claimer);
    }

    /// Claims the process, and is true, where this call finds it not taken. Where it finds it taken
    /// it is false.
    pub fn claim(&self, seat: &mut Seat, process: u32) -> bool
        requires fits { seat.old.table ≡ self.now }
        requires process { process < length self.now.system.lens }
        ensures table { seat.new.table ≡ seat.old.table }
        ensures floor { seat.new.floor ≡ seat.old.floor }
        ensures claimed { result ≡ true → (seat.new.claims ≡ seat.old.claims ++ process ∷ [])
            × (seat.new.marks ≡ seat.old.marks) }
        ensures taken { result ≡ false → (seat.new.claims ≡ seat.old.claims)
            × (seat.new.marks ≡ seat.old.marks ++ process ∷ []) }
    {
        // The look opens the table: the clauses rest on what its fields have in common.
        let _ = &self.system;
        self.claims.claim(&mut seat.claimer, process)
    }

    /// Lends the system of the table.
    pub fn system(&self) -> &System
        ensures { result.now ≡ self.now.system }
    {
        &self.system
    }

    /// Gives the system back.
    pub fn close(self, seat: Seat) -> System
        requires { seat.table ≡ self }
        ensures { result ≡ self.system }
    {
        drop(seat);
        let BoundTable {
            table,
            claims,
            system,
            firm,
            own,
        } = self;
        drop(table);
        drop(claims);
        drop(firm);
        drop(own);
        system
    }

    /// Reads the words of the row, which become the seat's floors for it, and puts them into
    /// `into`. It looks up no pull.
    pub fn look(&self, seat: &mut Seat, row: u32, into: &mut [u64])
        requires fits { seat.old.table ≡ self.now }
        requires row { row ≤ sum self.now.system.lens }
        requires into { length into.old ≡ length self.now.system.lens }
        ensures keeps { KeepsClaims seat.old seat.new }
        ensures follows { Follows self.now.system row seat.old.floor seat.new.floor into.new }
    {
        let mut words = [0; MOST_PROCESSES];
        let words = &mut words[..self.system().shape().procs() as usize];
        self.look_narrow(seat, row, words);
        widen(words, into);
    }

    /// Looks at the row as `look` does, with its words in 16 bits. They fit, since a run has few
    /// events.
    pub fn look_narrow(&self, seat: &mut Seat, row: u32, into: &mut [u16])
        requires fits { seat.old.table ≡ self.now }
        requires row { row ≤ sum self.now.system.lens }
        requires into { length into.old ≡ length self.now.system.lens }
        ensures keeps { KeepsClaims seat.old seat.new }
        ensures follows { Follows self.now.system row seat.old.floor seat.new.floor into.new }
    {
        seat.bounds();
        let begin = self.begin(row);
        let procs = self.system.shape().procs() as usize;
        for process in 0..procs {
            into[process] = self.load(seat, begin + process) as u16;
        }
    }

    /// Raises each word of `to_row` to at least the seat's floor for `from_row`, after a look at
    /// the words of `from_row`.
    ///
    /// The seat's floor for `to_row` has the event of `from_row`, or `from_row` is the bottom's.
    pub fn lend(&self, seat: &mut Seat, from_row: u32, to_row: u32)
        requires fits { seat.old.table ≡ self.now }
        requires rows { AreBothRows self.now.system.lens from_row to_row }
        requires event { has_start self.now.system.lens seat.old.floor to_row from_row ≡ true }
        ensures keeps { KeepsClaims seat.old seat.new }
        ensures lent { (process : ℕ) → process < length self.now.system.lens
            → word_at self.now.system.lens seat.new.floor from_row process
            ≤ word_at self.now.system.lens seat.new.floor to_row process }
        ensures others { (row process : ℕ) → row ≢ from_row → row ≢ to_row
            → process < length self.now.system.lens
            → word_at self.now.system.lens seat.new.floor row process
            ≡ word_at self.now.system.lens seat.old.floor row process }
        ensures rises { IsAtMost seat.old.floor seat.new.floor }
        ensures bounds { AreBounds self.now.system seat.new.floor }
    {
        seat.bounds();
        let from = self.begin(from_row);
        let to = self.begin(to_row);
        let procs = self.system.shape().procs();
        for process in 0..procs {
            let y = self.load(seat, from + process as usize);
            let word = to + process as usize;
            let found = self.load(seat, word);
            let _raised = self.raise_by_lend(seat, from_row, to_row, process, word, found, y);
        }
    }

    /// The seat's floors of all rows, after a look at the words of all rows.
    pub fn floors(&self, alloc: Global, seat: &mut Seat) -> Result<Rows, NoMemory>
        requires fits { seat.old.table ≡ self.now }
        ensures keeps { KeepsClaims seat.old seat.new }
        ensures rows { IfOk result (λ rows.
            rows ≡ record { lens = self.now.system.lens; words = seat.new.floor }) }
        ensures rises { IsAtMost seat.old.floor seat.new.floor }
        ensures bounds { AreBounds self.now.system seat.new.floor }
    {
        seat.bounds();
        let shape = self.system.shape();
        let count = shape.events() + 1;
        let mut words = Vec::with_capacity(alloc, count as usize * shape.procs() as usize)?;
        self.push_rows(seat, 0, count, &mut words)?;
        Rows::from_words(alloc, shape, words)
    }

    /// Appends the words of so many rows from the first on, which become the seat's floors for
    /// these rows.
    pub fn push_rows(
        &self,
        seat: &mut Seat,
        first: u32,
        count: u32,
        words: &mut Vec<u16>,
    ) -> Result<(), NoMemory>
        requires fits { seat.old.table ≡ self.now }
        requires rows { first + count ≤ sum self.now.system.lens + 1 }
        ensures keeps { KeepsClaims seat.old seat.new }
        ensures words { OnOk result (words.new.items ≡ words.old.items
            ++ rows_from self.now.system.lens seat.new.floor first count) }
        ensures rises { IsAtMost seat.old.floor seat.new.floor }
        ensures bounds { AreBounds self.now.system seat.new.floor }
    {
        let procs = self.system.shape().procs() as usize;
        let end = (first + count) as usize * procs;
        self.push_words(seat, first as usize * procs, end, words)
    }

    /// Appends the words from the first on up to the end, which become the seat's floors for them.
    // A piece is read into the cache and then appended at once. Pushed one by one, each word would
    // take a test for room and one for the error.
    fn push_words(
        &self,
        seat: &mut Seat,
        first: usize,
        end: usize,
        words: &mut Vec<u16>,
    ) -> Result<(), NoMemory>
        requires fits { seat.old.table ≡ self.now }
        requires first { first ≤ end }
        requires end { end ≤ word_count self.now.system.lens }
        ensures keeps { KeepsClaims seat.old seat.new }
        ensures words { OnOk result (words.new.items
            ≡ words.old.items ++ slice_range seat.new.floor first end) }
        ensures rises { IsAtMost seat.old.floor seat.new.floor }
        ensures bounds { AreBounds self.now.system seat.new.floor }
    {
        seat.bounds();
        if let Some(rows) = &self.own {
            self.reached(seat);
            words.extend_from_slice(&rows.as_words()[first..end])?;
            return Ok(());
        }
        let mut piece = [0; PIECE];
        let mut next = first;
        while next < end {
            let size = (end - next).min(PIECE);
            let piece = &mut piece[..size];
            self.load_from(seat, next, piece);
            words.extend_from_slice(piece)?;
            next += size;
        }
        Ok(())
    }

    /// Reads the words from the first on into `into`. They become the seat's floors for them.
    fn load_from(&self, seat: &mut Seat, first: usize, into: &mut [u16])
        requires fits { seat.old.table ≡ self.now }
        requires words { first + length into.old ≤ word_count self.now.system.lens }
        ensures keeps { KeepsClaims seat.old seat.new }
        ensures read { (i : ℕ) → i < length into.new
            → slice_index into.new i ≡ slice_index seat.new.floor (first + i) }
        ensures before { (word : ℕ) → word < first
            → slice_index seat.new.floor word ≡ slice_index seat.old.floor word }
        ensures rises { IsAtMost seat.old.floor seat.new.floor }
        ensures bounds { AreBounds self.now.system seat.new.floor }
    {
        // By its clause the lengths are those of a shape.
        let _shape = self.system.shape();
        seat.bounds();
        for i in 0..into.len() {
            into[i] = self.load(seat, first + i) as u16;
        }
    }

    /// Where the words of a row begin among the words.
    pub(crate) fn begin(&self, row: u32) -> usize
        requires { row ≤ sum self.now.system.lens }
        ensures place { result ≡ place_of self.now.system.lens row 0 }
        ensures there { result + length self.now.system.lens ≤ word_count self.now.system.lens }
        ensures system { IsSystem self.now.system }
    {
        row as usize * self.system.shape().procs() as usize
    }

    /// Where the word of a process in a row stands among the words.
    pub(crate) fn place(&self, row: u32, process: u32) -> usize
        requires row { row ≤ sum self.now.system.lens }
        requires process { process < length self.now.system.lens }
        ensures place { result ≡ place_of self.now.system.lens row process }
        ensures there { result < word_count self.now.system.lens }
        ensures system { IsSystem self.now.system }
    {
        self.begin(row) + process as usize
    }

    /// Reads one word, which becomes the seat's floor for it.
    pub(crate) fn load(&self, seat: &mut Seat, word: usize) -> u64
        requires fits { seat.old.table ≡ self.now }
        requires word { word < word_count self.now.system.lens }
        ensures keeps { KeepsClaims seat.old seat.new }
        ensures floor { seat.new.floor ≡ slice_set seat.old.floor word result }
        ensures rises { slice_index seat.old.floor word ≤ result }
        ensures bounds { AreBounds self.now.system seat.new.floor }
    {
        // The look opens the table: the clauses rest on what its fields have in common.
        let _ = &self.system;
        if let Some(rows) = &self.own {
            self.reached(seat);
            return rows.as_words()[word] as u64;
        }
        self.table.shared.load::<Looks>(&mut seat.token, word)
    }

    /// The machine's step of a pull in the row: the word of its target becomes at least `asked`,
    /// what it asks for at a value that the seat's floor for its source has reached. It gives what
    /// the word became, which is the seat's floor for it.
    pub(crate) fn raise_by_pull(&self, seat: &mut Seat, row: u32, target: u32, asked: u64) -> u64
        requires fits { seat.old.table ≡ self.now }
        requires target { target < length self.now.system.lens }
        requires step { IsPullStep self.now.system seat.old.floor row target asked }
        ensures keeps { KeepsClaims seat.old seat.new }
        ensures raised { IsRaised self.now.system seat.old.floor seat.new.floor (cell_of row target)
            asked
            result }
    {
        let word = self.place(row, target);
        if let Some(rows) = &self.own {
            self.reached(seat);
            return rows.as_words()[word] as u64;
        }
        let found = self
            .table
            .shared
            .fetch_max::<Lifts>(&mut seat.token, word, asked);
        found.max(asked)
    }

    /// The machine's step of lending: the word of `to_row` becomes at least `y`, which the seat's
    /// floor for `from_row` has reached. It gives what the word became, which is the seat's floor
    /// for it. Where `found`, the floor for it so far, is as high already, nothing is raised.
    /// `word` is its place among the words.
    pub(crate) fn raise_by_lend(
        &self,
        seat: &mut Seat,
        from_row: u32,
        to_row: u32,
        process: u32,
        word: usize,
        found: u64,
        y: u64,
    ) -> u64
        requires fits { seat.old.table ≡ self.now }
        requires word { word ≡ place_of self.now.system.lens to_row process }
        requires found { found ≡ word_at self.now.system.lens seat.old.floor to_row process }
        requires step { is_allowed self.now.system seat.old.floor (Lend to_row from_row process y)
            ≡ true }
        ensures keeps { KeepsClaims seat.old seat.new }
        ensures raised { IsRaised self.now.system seat.old.floor seat.new.floor
            (cell_of to_row process) y
            result }
    {
        seat.bounds();
        if y <= found {
            return found;
        }
        if let Some(_rows) = &self.own {
            self.reached(seat);
            return found;
        }
        let was = self
            .table
            .shared
            .fetch_max::<Lifts>(&mut seat.token, word, y);
        was.max(y)
    }
}
