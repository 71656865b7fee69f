//! The lines of a log in their order, each without its line feed.

ghost use Rattle.std.specs.Prelude.{◌≡◌, ◌+◌, ◌-◌, ◌^◌, ◌<◌, ◌≤◌, ◌∷◌, ◌++◌, [], length, All, IfOk};
ghost use Rattle.std.specs.Prelude.{OnOk};
ghost use Rattle.pota_base.specs.Limits.{most_processes, most_variables};
ghost use Rattle.event_log.specs.Before.{version_in};

use crate::copies::{bindings_of, copy_of, filled, names_of, var_lines_of};
use crate::item::{Item, LogCode};
use crate::log::{Binding, Header};
use crate::numbers::event_named;
use crate::refusals::{fault_of, refused};
use log_lines::{
    Frames, Name, begins_vars, is_batch, is_end, place_among, read_event, read_procs, read_vars,
};
use pota_base::{List, NoMemory, Refused};
use std::alloc::Global;

/// How far the lines have come.
#[derive(Clone, Copy, Debug, PartialEq, Eq)]
pub enum Stage {
    /// Lines of the header may follow.
    Header,
    /// Events and `batch` lines may follow, or the `end` line.
    Body,
    Ended,
}

/// What the lines so far say, as far as the lines after them need it.
#[derive(Debug, Drop)]
pub struct LineReader {
    stage: Stage,
    lines: u32,
    version: u32,
    events: u32,
    procs: List<Name>,
    /// The variables of the processes up to that of the last `vars` line.
    variables: List<List<Binding>>,
    /// Of the last clocks of the processes.
    frames: Frames,
    ghost counted: { events ≤ lines },
    ghost few: { length procs ≤ most_processes },
    ghost narrow: { All (λ bindings. length bindings ≤ most_variables) variables },
    ghost placed: { length variables ≤ most_processes },
}

// The version that a first line names.
fn version_in(line: &[u8]) -> Option<u32>
    ensures { result ≡ version_in line.now }
{
    if line == b"pota-log 1".as_slice() {
        return Some(1);
    }
    if line == b"pota-log 2".as_slice() {
        return Some(2);
    }
    None
}

impl LineReader {
    ghost use Rattle.event_log.specs.declared.line_reader.Stage.TheVariants.{Header as InHeader};
    ghost use Rattle.event_log.specs.Before.{is_ended, heading_told, procs_told, vars_told};
    ghost use Rattle.event_log.specs.inside.Before.{Lines};
    ghost use Rattle.event_log.specs.Before.{body_told, filled, headed};
    ghost use Rattle.event_log.specs.Lines.{HasReadLines};
    ghost use Rattle.event_log.specs.inside.Lines.{JudgedAs, JudgedItem, TakesHeading, TakesProcs};
    ghost use Rattle.event_log.specs.inside.Lines.{TakesVars, Passes, TakesBody, TakesLine};

    /// A reader that has read no line. It takes no memory.
    #[tactic(auto, unfolding(crate::specs::Before::version, crate::specs::Before::names, crate::specs::Before::variables, crate::specs::Before::events, crate::specs::Before::is_header_over, crate::specs::Before::is_ended))]
    pub fn new(alloc: Global) -> LineReader
        ensures { HasReadLines result [] }
    {
        LineReader {
            stage: Stage::Header,
            lines: 0,
            version: 1,
            events: 0,
            procs: List::new(alloc),
            variables: List::new(alloc),
            frames: Frames::new(alloc),
        }
    }

    /// Whether the `end` line was read.
    pub fn is_ended(&self) -> bool
        ensures { (older : Lines) → HasReadLines self.now older → result ≡ is_ended older }
    {
        self.stage == Stage::Ended
    }

    /// How many lines were read without a fault.
    pub fn line_count(&self) -> u32
        ensures { result ≡ self.now.lines }
    {
        self.lines
    }

    // The first line.
    fn take_heading(&mut self, line: &[u8]) -> Result<(), Refused<LogCode>>
        requires { self.old.lines < 2 ^ 32 - 1 }
        ensures told { JudgedAs result (heading_told line.now) }
        ensures next { OnOk result (TakesHeading self.old self.new line.now) }
        ensures counts { self.new.lines ≤ self.old.lines + 1 }
    {
        let Some(version) = version_in(line) else {
            return Err(Refused::Fault(LogCode::BadHeader));
        };
        self.version = version;
        self.lines += 1;
        Ok(())
    }

    // The second line.
    fn take_procs(&mut self, alloc: Global, line: &[u8]) -> Result<(), Refused<LogCode>>
        requires { self.old.lines < 2 ^ 32 - 1 }
        ensures told { JudgedAs result (procs_told line.now) }
        ensures next { OnOk result (TakesProcs self.old self.new line.now) }
        ensures counts { self.new.lines ≤ self.old.lines + 1 }
    {
        let texts = refused(read_procs(alloc, line), LogCode::BadProcs)?;
        let procs = names_of(alloc, &texts)?;
        self.frames = Frames::of(alloc, procs.len())?;
        self.procs = procs;
        self.lines += 1;
        Ok(())
    }

    // A `vars` line in its place.
    fn take_vars(&mut self, alloc: Global, line: &[u8]) -> Result<(), Refused<LogCode>>
        requires { self.old.lines < 2 ^ 32 - 1 }
        ensures told { JudgedAs result (vars_told self.old.procs self.old.variables line.now) }
        ensures next { OnOk result (TakesVars self.old self.new line.now) }
        ensures counts { self.new.lines ≤ self.old.lines + 1 }
    {
        let draft = refused(read_vars(alloc, line), LogCode::BadLine)?;
        let Some(process) = place_among(self.procs.as_slice(), draft.process) else {
            return Err(Refused::Fault(LogCode::UnknownProcess));
        };
        if process < self.variables.len() {
            return Err(Refused::Fault(LogCode::BadLine));
        }
        let bindings = bindings_of(alloc, draft.settings.as_slice())?;
        self.add_variables(alloc, process, bindings)?;
        self.lines += 1;
        Ok(())
    }

    // The variables of one process more.
    fn add_variables(
        &mut self,
        alloc: Global,
        process: usize,
        bindings: List<Binding>,
    ) -> Result<(), NoMemory>
        requires few { length bindings ≤ most_variables }
        requires there { process < length self.old.procs }
        requires first { length self.old.variables ≤ process }
        ensures variables { OnOk result (self.new.variables
            ≡ filled self.old.variables process ++ bindings ∷ []) }
        ensures counts { self.new.lines ≡ self.old.lines }
        ensures same { OnOk result ((self.new.procs ≡ self.old.procs)
            × (self.new.lines ≡ self.old.lines) × (self.new.version ≡ self.old.version)
            × (self.new.events ≡ self.old.events) × (self.new.stage ≡ self.old.stage)) }
    {
        let before = std::mem::replace(&mut self.variables, List::new(alloc));
        let mut variables = filled(alloc, before, process)?;
        variables.push(bindings)?;
        self.variables = variables;
        Ok(())
    }

    // A line behind the header.
    fn item_of(
        &self,
        alloc: Global,
        frames: &mut Frames,
        line: &[u8],
    ) -> Result<Item, Refused<LogCode>>
        requires { self.now.lines < 2 ^ 32 - 1 }
        ensures { JudgedItem result (body_told self.now.version self.now.procs self.now.variables
            (self.now.lines + 1) self.now.events line.now) }
    {
        if is_batch(line) {
            return Ok(Item::BatchEnd);
        }
        if is_end(line) {
            return Ok(Item::End);
        }
        let procs = self.procs.as_slice();
        let draft = refused(read_event(alloc, procs, frames, line), LogCode::BadLine)?;
        let event = event_named(
            alloc,
            self.version,
            procs,
            self.variables.as_slice(),
            self.lines + 1,
            self.events,
            draft,
        )?;
        Ok(Item::Event(event))
    }

    // One line more, which gave this item.
    fn pass(&mut self, item: &Item)
        requires { self.old.lines < 2 ^ 32 - 1 }
        ensures { Passes self.old self.new item.now }
    {
        self.lines += 1;
        match item {
            Item::Event(_) => {
                self.events += 1;
                self.stage = Stage::Body;
            }
            Item::Header(_) | Item::BatchEnd => self.stage = Stage::Body,
            Item::End => self.stage = Stage::Ended,
        }
    }

    // The processes and their variables, once all are known.
    fn header(&self, alloc: Global) -> Result<Header, NoMemory>
        ensures { IfOk result (λ h. h ≡ headed self.now.version self.now.procs
            (filled self.now.variables (length self.now.procs))) }
    {
        let procs = copy_of(alloc, self.procs.as_slice())?;
        let variables = copy_of(alloc, self.variables.as_slice())?;
        let vars = filled(alloc, variables, procs.len())?;
        let var_lines = var_lines_of(alloc, vars.as_slice())?;
        Ok(Header {
            version: self.version,
            procs,
            vars,
            var_lines,
        })
    }

    // A line behind the header, whose item stands behind those before where it has no fault.
    fn take_body(
        &mut self,
        alloc: Global,
        line: &[u8],
        items: &mut List<Item>,
    ) -> Result<(), Refused<LogCode>>
        requires { self.old.lines < 2 ^ 32 - 1 }
        ensures takes { TakesBody (body_told self.old.version self.old.procs self.old.variables
            (self.old.lines + 1) self.old.events line.now)
            self.old items.old result items.new self.new }
        ensures counts { self.new.lines ≤ self.old.lines + 1 }
    {
        let mut frames = std::mem::replace(&mut self.frames, Frames::new(alloc));
        let item = self.item_of(alloc, &mut frames, line)?;
        self.frames = frames;
        self.pass(&item);
        items.push(item)?;
        Ok(())
    }

    // A line before the first one behind the header, or that one.
    fn take_header(
        &mut self,
        alloc: Global,
        line: &[u8],
        items: &mut List<Item>,
    ) -> Result<Option<LogCode>, NoMemory>
        requires room { self.old.lines < 2 ^ 32 - 1 }
        requires stage { self.old.stage ≡ InHeader }
        ensures takes { IfOk result (λ fault.
            TakesLine self.old line.now items.old fault items.new self.new) }
        ensures counts { self.new.lines ≤ self.old.lines + 1 }
    {
        if self.lines == 0 {
            return fault_of(self.take_heading(line));
        }
        if self.lines == 1 {
            return fault_of(self.take_procs(alloc, line));
        }
        if begins_vars(line) {
            return fault_of(self.take_vars(alloc, line));
        }
        let header = self.header(alloc)?;
        items.push(Item::Header(header))?;
        fault_of(self.take_body(alloc, line, items))
    }

    /// Reads one line more, and puts what it gives behind the items. After a fault, and without
    /// memory, the reader is of no further use.
    pub fn take(
        &mut self,
        alloc: Global,
        line: &[u8],
        items: &mut List<Item>,
    ) -> Result<Option<LogCode>, NoMemory>
        requires { self.old.lines < 2 ^ 32 - 1 }
        ensures takes { IfOk result (λ fault.
            TakesLine self.old line.now items.old fault items.new self.new) }
        ensures counts { self.new.lines ≤ self.old.lines + 1 }
    {
        match self.stage {
            Stage::Header => self.take_header(alloc, line, items),
            Stage::Body => fault_of(self.take_body(alloc, line, items)),
            Stage::Ended => Ok(Some(LogCode::Trailing)),
        }
    }
}
