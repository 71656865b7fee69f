//! The header and the batches of a log.

use event_log::{Event, Fed, Header, Item, Reader};
use pota_base::{List, NoMemory};
use std::alloc::Global;
use std::mem;

/// What a log gave.
#[derive(Drop)]
pub struct Logged {
    pub header: Header,
    pub batches: Vec<List<Event>>,
}

// What the items so far gave.
#[derive(Drop)]
struct Collected {
    header: Option<Header>,
    batches: Vec<List<Event>>,
    /// The events behind the last batch.
    batch: List<Event>,
    /// The bits of the events to come, none where the batches are those of the log.
    cutting: Option<u64>,
}

impl Collected {
    fn new(alloc: Global, cutting: Option<u64>) -> Collected {
        Collected {
            header: None,
            batches: Vec::new(alloc),
            batch: List::new(alloc),
            cutting,
        }
    }

    fn end_batch(&mut self, alloc: Global) -> Result<(), NoMemory> {
        let batch = mem::replace(&mut self.batch, List::new(alloc));
        self.batches.push(batch)?;
        Ok(())
    }

    // Whether a cutting has a batch end behind the next event.
    fn take_bit(&mut self) -> bool {
        let Some(left) = self.cutting else {
            return false;
        };
        self.cutting = Some(left / 2);
        left % 2 == 1
    }

    fn add_event(&mut self, alloc: Global, event: Event) -> Result<(), NoMemory> {
        self.batch.push(event)?;
        if self.take_bit() {
            self.end_batch(alloc)?;
        }
        Ok(())
    }

    fn add(&mut self, alloc: Global, item: Item) -> Result<(), NoMemory> {
        match item {
            Item::Header(header) => {
                self.header = Some(header);
                Ok(())
            }
            Item::Event(event) => self.add_event(alloc, event),
            Item::BatchEnd if self.cutting.is_some() => Ok(()),
            Item::BatchEnd | Item::End => self.end_batch(alloc),
        }
    }

    fn add_all(&mut self, alloc: Global, items: List<Item>) -> Result<(), NoMemory> {
        for item in items.into_vec() {
            self.add(alloc, item)?;
        }
        Ok(())
    }

    fn into_logged(self) -> Option<Logged> {
        let Collected {
            header,
            batches,
            ..
        } = self;
        let header = header?;
        Some(Logged { header, batches })
    }
}

fn fed(alloc: Global, text: &str) -> Result<Fed, NoMemory> {
    let mut reader = Reader::new(alloc);
    let fed = reader.feed(text.as_bytes());
    drop(reader);
    fed
}

fn log_of(
    alloc: Global,
    items: List<Item>,
    cutting: Option<u64>,
) -> Result<Option<Logged>, NoMemory> {
    let mut collected = Collected::new(alloc, cutting);
    collected.add_all(alloc, items)?;
    Ok(collected.into_logged())
}

/// The header and the batches of a text, none where its lines have a fault. By a cutting the events
/// of all batches, in their order, are cut anew: behind event K where bit K of the cutting is 1,
/// from 0, and behind the last.
pub fn read(alloc: Global, text: &str, cutting: Option<u64>) -> Result<Option<Logged>, NoMemory> {
    let Fed { items, fault } = fed(alloc, text)?;
    if fault.is_some() {
        return Ok(None);
    }
    log_of(alloc, items, cutting)
}

// How many ways there are to cut the events, up to 12 of them, into batches.
fn ways(batches: &[List<Event>]) -> u64 {
    let mut ways = 1;
    for batch in batches {
        for _ in batch.as_slice() {
            ways = if ways < 4096 { ways * 2 } else { ways };
        }
    }
    (ways / 2).max(1)
}

/// How many ways there are to cut the events of a text, up to 12 of them, into batches, none where
/// its lines have a fault.
pub fn cuttings(alloc: Global, text: &str) -> Result<Option<u64>, NoMemory> {
    match read(alloc, text, None)? {
        Some(logged) => Ok(Some(ways(logged.batches.as_slice()))),
        None => Ok(None),
    }
}
