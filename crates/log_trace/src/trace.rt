//! The trace of a log, as its items come.
ghost use Rattle.std.specs.Prelude.{◌∷◌, [], OnOk};
ghost use Rattle.vector_clock.specs.Admitted.{IfFault};
ghost use Rattle.event_log.specs.LogText.{HeaderFits};
ghost use Rattle.log_rules.specs.Judgement.{Judgement, judge, judged, opened, waiting};
ghost use Rattle.log_trace.specs.Judging.{Keeps, IsRefused, MayFollow, without_formula};
ghost use Rattle.log_trace.specs.inside.Judging.{end_item};

use event_log::{Event, Header, Item, LogFault};
use pota_base::{List, NoMemory, Refused};
use std::alloc::Global;
use std::mem;
use trace_growth::Trace;

/// The trace of a log, as far as its items came.
#[derive(Drop)]
pub struct LogTrace {
    /// The batches so far, behind the header.
    pub trace: Option<Trace>,
    /// The events since the last batch was closed.
    since: List<Event>,
    /// Whether the `end` line came.
    ended: bool,
}

impl LogTrace {
    /// A log of which no item came yet. It takes no memory.
    pub fn new(alloc: Global) -> LogTrace
        ensures { Keeps result waiting }
    {
        LogTrace {
            trace: None,
            since: List::new(alloc),
            ended: false,
        }
    }

    // The header came.
    fn open(&mut self, alloc: Global, header: Header) -> Result<(), NoMemory>
        requires waiting { Keeps self.old waiting }
        requires header { HeaderFits header }
        ensures { OnOk result (Keeps self.new (opened without_formula header)) }
    {
        match Trace::new(alloc, header) {
            Ok(trace) => {
                self.trace = Some(trace);
                Ok(())
            }
            Err(NoMemory) => Err(NoMemory),
        }
    }

    // A batch is closed.
    fn close(&mut self, alloc: Global, last: bool) -> Result<(), Refused<LogFault>>
        requires { (j : Judgement) × Keeps self.old j × MayFollow j (end_item last ∷ []) }
        ensures ok { OnOk result ((j : Judgement) → Keeps self.old j
            → MayFollow j (end_item last ∷ [])
            → Keeps self.new (judge without_formula j (end_item last))) }
        ensures fault { IfFault result (λ f. (j : Judgement) → Keeps self.old j
            → MayFollow j (end_item last ∷ [])
            → IsRefused (judge without_formula j (end_item last)) f) }
    {
        if self.ended {
            return Ok(());
        }
        let batch = mem::replace(&mut self.since, List::new(alloc));
        let Some(trace) = &mut self.trace else {
            unreachable!()
        };
        match trace.extend(batch) {
            Ok(()) => {}
            Err(Refused::Fault(fault)) => return Err(Refused::Fault(fault)),
            Err(Refused::NoMemory) => return Err(Refused::NoMemory),
        }
        self.ended = last;
        Ok(())
    }

    // Takes one item more, behind those before.
    fn take(&mut self, alloc: Global, item: Item) -> Result<(), Refused<LogFault>>
        requires { (j : Judgement) × Keeps self.old j × MayFollow j (item ∷ []) }
        ensures ok { OnOk result ((j : Judgement) → Keeps self.old j → MayFollow j (item ∷ [])
            → Keeps self.new (judge without_formula j item)) }
        ensures fault { IfFault result (λ f. (j : Judgement) → Keeps self.old j
            → MayFollow j (item ∷ []) → IsRefused (judge without_formula j item) f) }
    {
        match item {
            Item::Event(event) => {
                self.since.push(event)?;
                Ok(())
            }
            Item::Header(header) => match self.open(alloc, header) {
                Ok(()) => Ok(()),
                Err(NoMemory) => Err(Refused::NoMemory),
            },
            Item::BatchEnd => self.close(alloc, false),
            Item::End => self.close(alloc, true),
        }
    }

    /// Takes these items, behind those before, in their order and up to the first fault.
    pub fn take_all(&mut self, alloc: Global, items: List<Item>) -> Result<(), Refused<LogFault>>
        requires { (j : Judgement) × Keeps self.old j × MayFollow j items }
        ensures ok { OnOk result ((j : Judgement) → Keeps self.old j → MayFollow j items
            → Keeps self.new (judged without_formula j items)) }
        ensures fault { IfFault result (λ f. (j : Judgement) → Keeps self.old j
            → MayFollow j items → IsRefused (judged without_formula j items) f) }
    {
        let mut rest = items.into_vec().into_iter();
        while let Some(item) = rest.next() {
            if let Err(refused) = self.take(alloc, item) {
                return Err(refused);
            }
        }
        Ok(())
    }
}
