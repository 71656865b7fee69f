//! A log with its clocks filled in, as its items come.
ghost use Rattle.std.specs.Prelude.{◌≡◌, ◌∷◌, [], length, None, Some, IfOk, OnOk};
ghost use Rattle.vector_clock.specs.Admitted.{IfFault};
ghost use Rattle.event_log.specs.FittingItems.{FitFirst};
ghost use Rattle.event_log.specs.LogText.{HeaderFits, log_items};
ghost use Rattle.log_rules.specs.Judgement.{Judgement, judge, judged, opened, waiting, Prefix};
ghost use Rattle.log_rules.specs.Judgement.{followed_by, with_clocks, clock_fault};
ghost use Rattle.log_trace.specs.Judging.{IsRefused, without_formula, MayFollow};
ghost use Rattle.log_trace.specs.inside.Judging.{end_item};
ghost use Rattle.log_rules.specs.WholeLogs.{all_of};
ghost use Rattle.log_writing.specs.Spelling.{HasText};
ghost use Rattle.filled_log.specs.Filling.{AreFaultless, HasLog, HasBegun, Keeps};
ghost use Rattle.filled_log.specs.inside.Filling.{IsBegunBy, MayComeBehind};

use event_log::{Event, Header, Item, Log, LogFault};
use pota_base::{List, NoMemory, Refused};
use std::alloc::Global;
use std::mem;
use vector_clock::{Clocks, filled};

/// A log of which the header came.
#[derive(Drop)]
pub struct Begun {
    /// The header, and the batches so far with all their clocks.
    pub log: Log,
    clocks: Clocks,
}

/// A log with its clocks filled in, as far as its items came.
#[derive(Drop)]
pub struct FilledLog {
    /// None before the header.
    pub begun: Option<Begun>,
    /// The events since the last batch was closed.
    since: List<Event>,
    /// Whether the `end` line came.
    ended: bool,
}

impl Begun {
    // A log of this header, without a batch.
    fn new(alloc: Global, header: Header) -> Result<Begun, NoMemory>
        requires { HeaderFits header }
        ensures { IfOk result (IsBegunBy header) }
    {
        let clocks = Clocks::new(alloc, header.procs.len() as u32)?;
        Ok(Begun {
            log: Log {
                header,
                batches: List::new(alloc),
            },
            clocks,
        })
    }

    // Takes a batch whole, with its clocks filled in.
    fn extend(&mut self, alloc: Global, batch: List<Event>) -> Result<(), Refused<LogFault>>
        requires { (log : Prefix) × HasLog self.old log × MayComeBehind log batch }
        ensures ok { OnOk result ((log : Prefix) → HasLog self.old log → MayComeBehind log batch
            → (clock_fault log (with_clocks log batch) ≡ None)
            × HasLog self.new (followed_by log (with_clocks log batch))) }
        ensures fault { IfFault result (λ f. (log : Prefix) → HasLog self.old log
            → MayComeBehind log batch → clock_fault log (with_clocks log batch) ≡ Some f) }
    {
        let batch = match filled(&self.clocks, alloc, batch) {
            Ok(batch) => batch,
            Err(NoMemory) => return Err(Refused::NoMemory),
        };
        match self.clocks.admit(batch.as_slice()) {
            Ok(()) => {}
            Err(Refused::Fault(fault)) => return Err(Refused::Fault(fault)),
            Err(Refused::NoMemory) => return Err(Refused::NoMemory),
        }
        match self.log.batches.push(batch) {
            Ok(()) => Ok(()),
            Err(_) => Err(Refused::NoMemory),
        }
    }
}

impl FilledLog {
    /// A log of which no item came yet. It takes no memory.
    pub fn new(alloc: Global) -> FilledLog
        ensures { Keeps result waiting }
    {
        FilledLog {
            begun: None,
            since: List::new(alloc),
            ended: false,
        }
    }

    // The header came.
    fn open(&mut self, alloc: Global, header: Header) -> Result<(), NoMemory>
        requires waiting { Keeps self.old waiting }
        requires header { HeaderFits header }
        ensures { OnOk result (Keeps self.new (opened without_formula header)) }
    {
        match Begun::new(alloc, header) {
            Ok(begun) => {
                self.begun = Some(begun);
                Ok(())
            }
            Err(NoMemory) => Err(NoMemory),
        }
    }

    // A batch is closed.
    fn close(&mut self, alloc: Global, last: bool) -> Result<(), Refused<LogFault>>
        requires { (j : Judgement) × Keeps self.old j × MayFollow j (end_item last ∷ []) }
        ensures ok { OnOk result ((j : Judgement) → Keeps self.old j
            → MayFollow j (end_item last ∷ [])
            → Keeps self.new (judge without_formula j (end_item last))) }
        ensures fault { IfFault result (λ f. (j : Judgement) → Keeps self.old j
            → MayFollow j (end_item last ∷ [])
            → IsRefused (judge without_formula j (end_item last)) f) }
    {
        if self.ended {
            return Ok(());
        }
        let batch = mem::replace(&mut self.since, List::new(alloc));
        let Some(begun) = &mut self.begun else {
            unreachable!()
        };
        match begun.extend(alloc, batch) {
            Ok(()) => {}
            Err(Refused::Fault(fault)) => return Err(Refused::Fault(fault)),
            Err(Refused::NoMemory) => return Err(Refused::NoMemory),
        }
        self.ended = last;
        Ok(())
    }

    // Takes one item more, behind those before.
    fn take(&mut self, alloc: Global, item: Item) -> Result<(), Refused<LogFault>>
        requires { (j : Judgement) × Keeps self.old j × MayFollow j (item ∷ []) }
        ensures ok { OnOk result ((j : Judgement) → Keeps self.old j → MayFollow j (item ∷ [])
            → Keeps self.new (judge without_formula j item)) }
        ensures fault { IfFault result (λ f. (j : Judgement) → Keeps self.old j
            → MayFollow j (item ∷ []) → IsRefused (judge without_formula j item) f) }
    {
        match item {
            Item::Event(event) => {
                self.since.push(event)?;
                Ok(())
            }
            Item::Header(header) => match self.open(alloc, header) {
                Ok(()) => Ok(()),
                Err(NoMemory) => Err(Refused::NoMemory),
            },
            Item::BatchEnd => self.close(alloc, false),
            Item::End => self.close(alloc, true),
        }
    }

    /// Takes these items, the first ones of a log, in their order and up to the first fault.
    pub fn take_all(&mut self, alloc: Global, items: List<Item>) -> Result<(), Refused<LogFault>>
        requires none { Keeps self.old waiting }
        requires fit { FitFirst items }
        ensures ok { OnOk result (Keeps self.new (judged without_formula waiting items)) }
        ensures fault { IfFault result (IsRefused (judged without_formula waiting items)) }
    {
        let mut rest = items.into_vec().into_iter();
        while let Some(item) = rest.next() {
            if let Err(refused) = self.take(alloc, item) {
                return Err(refused);
            }
        }
        Ok(())
    }

    /// Takes a whole log of one batch, up to the first fault.
    pub fn take_log(&mut self, alloc: Global, log: Log) -> Result<(), Refused<LogFault>>
        requires none { Keeps self.old waiting }
        requires batch { length log.batches ≡ 1 }
        requires fit { FitFirst (log_items log) }
        ensures ok { OnOk result (Keeps self.new (judged without_formula waiting (log_items log))) }
        ensures fault { IfFault result
            (IsRefused (judged without_formula waiting (log_items log))) }
    {
        let Log { header, batches } = log;
        let mut batches = batches.into_vec();
        let Some(batch) = batches.pop() else {
            unreachable!()
        };
        match self.open(alloc, header) {
            Ok(()) => {}
            Err(NoMemory) => return Err(Refused::NoMemory),
        }
        self.since = batch;
        self.close(alloc, true)
    }

    /// The header and the closed batches.
    pub fn into_log(self) -> Log
        requires { (log : Prefix) × HasBegun self log }
        ensures { (log : Prefix) → HasBegun self log → (all_of result ≡ log) × HasText result
            × AreFaultless (length result.header.procs) result.batches }
    {
        let FilledLog {
            begun,
            since: _,
            ended: _,
        } = self;
        match begun {
            Some(begun) => {
                let Begun { log, clocks: _ } = begun;
                log
            }
            None => unreachable!(),
        }
    }
}
