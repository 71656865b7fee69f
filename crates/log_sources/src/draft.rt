//! A log in the making.

ghost use Rattle.std.specs.Prelude.{◌≡◌, IfOk, OnOk};
ghost use Rattle.log_sources.specs.Drafts.{log_of};

use event_log::{Event, Header, Item, Log};
use pota_base::{List, NoMemory};
use std::alloc::Global;

/// The header and the events of a source so far. Its `batch` lines are not kept.
#[derive(Debug, Drop)]
pub struct Draft {
    header: Header,
    events: List<Event>,
}

impl Draft {
    ghost use Rattle.log_sources.specs.Drafts.{empty_draft, with_item, with_items};

    /// No items. It takes no memory.
    pub fn new(alloc: Global) -> Draft
        ensures { result ≡ empty_draft }
    {
        Draft {
            header: Header {
                version: 1,
                procs: List::new(alloc),
                vars: List::new(alloc),
                var_lines: List::new(alloc),
            },
            events: List::new(alloc),
        }
    }

    fn take(&mut self, item: Item) -> Result<(), NoMemory>
        ensures { OnOk result (self.new ≡ with_item self.old item) }
    {
        match item {
            Item::Header(header) => self.header = header,
            Item::Event(event) => self.events.push(event)?,
            Item::BatchEnd | Item::End => {}
        }
        Ok(())
    }

    /// These items more.
    pub fn take_all(&mut self, items: List<Item>) -> Result<(), NoMemory>
        ensures { OnOk result (self.new ≡ with_items self.old items) }
    {
        for item in items.into_vec() {
            self.take(item)?;
        }
        Ok(())
    }

    /// The log of the items.
    pub fn into_log(self, alloc: Global) -> Result<Log, NoMemory>
        ensures { IfOk result (λ log. log ≡ log_of self) }
    {
        let mut batches = List::new(alloc);
        batches.push(self.events)?;
        Ok(Log {
            header: self.header,
            batches,
        })
    }
}
