//! How many of the first events of each process are kept.
ghost use Rattle.std.specs.Prelude.{◌≡◌, ◌+◌, ◌≤◌, length, IfOk, OnOk};
ghost use Rattle.pota_base.specs.Limits.{most_events};
ghost use Rattle.event_log.specs.LogText.{event_count};
ghost use Rattle.clock_laws.specs.Joined.{as_one};
ghost use Rattle.kept_log.specs.inside.Counted.{first_row, row_with, row_with_all};
ghost use Rattle.kept_log.specs.inside.Counted.{counts_of, all_counts};

use crate::numbers::Numbers;
use event_log::Event;
use pota_base::{List, NoMemory};
use std::alloc::Global;

/// The counts of one process, as the events of the log come.
#[derive(Debug, Drop)]
struct Row {
    process: usize,
    /// For each number of its first events, how many of these are kept.
    counts: List<u32>,
    /// How many are kept so far.
    kept: u32,
}

impl Row {
    fn new(alloc: Global, process: usize) -> Result<Row, NoMemory>
        ensures { IfOk result (λ row. row ≡ first_row process) }
    {
        let mut counts = List::new(alloc);
        counts.push(0)?;
        Ok(Row {
            process,
            counts,
            kept: 0,
        })
    }

    fn take(&mut self, numbers: &Numbers, event: &Event) -> Result<(), NoMemory>
        requires { self.old.kept + 1 ≤ most_events }
        ensures { OnOk result (self.new ≡ row_with numbers.now self.old event.now) }
    {
        if event.process as usize != self.process {
            return Ok(());
        }
        if numbers.is_kept(event) {
            self.kept += 1;
        }
        self.counts.push(self.kept)
    }

    fn take_all(&mut self, numbers: &Numbers, batch: &[Event]) -> Result<(), NoMemory>
        requires { self.old.kept + length batch.now ≤ most_events }
        ensures { OnOk result (self.new ≡ row_with_all numbers.now self.old batch.now) }
    {
        for event in batch {
            self.take(numbers, event)?;
        }
        Ok(())
    }
}

fn counts_of(
    alloc: Global,
    numbers: &Numbers,
    batches: &[List<Event>],
    process: usize,
) -> Result<List<u32>, NoMemory>
    requires { event_count batches.now ≤ most_events }
    ensures { IfOk result (λ counts. counts
        ≡ counts_of numbers.now (as_one batches.now) process) }
{
    let mut row = Row::new(alloc, process)?;
    for batch in batches {
        row.take_all(numbers, batch.as_slice())?;
    }
    Ok(row.counts)
}

/// For each of so many processes, and for each number of its first events, how many of these are
/// kept.
pub fn all_counts(
    alloc: Global,
    numbers: &Numbers,
    batches: &[List<Event>],
    processes: usize,
) -> Result<List<List<u32>>, NoMemory>
    requires { event_count batches.now ≤ most_events }
    ensures { IfOk result (λ counts. counts
        ≡ all_counts numbers.now (as_one batches.now) processes) }
{
    let mut counts = List::with_capacity(alloc, processes)?;
    for process in 0..processes {
        let row = counts_of(alloc, numbers, batches, process)?;
        counts.push(row)?;
    }
    Ok(counts)
}
