//! The merged log.

ghost use Rattle.std.specs.Prelude.{◌≡◌, ◌^◌, ◌≤◌, ◌<◌, length, IfOk, None, Some, replicate};
ghost use Rattle.std.specs.List.{AllByRecursion};
ghost use Rattle.pota_base.specs.Limits.{most_processes};
ghost use Rattle.log_merge.specs.Sources.{IsSource};
ghost use Rattle.log_merge.specs.Faults.{merge_fault};
ghost use Rattle.log_merge.specs.Merging.{merged};
ghost use Rattle.vector_clock.specs.Admitted.{IfFault};
ghost use Rattle.log_merge.specs.Owners.{IsJudged};

use crate::gathering::{Gathered, variables};
use crate::judging::judge;
use event_log::{Header, Log, copy_of};
use fault_kinds::MergeFault;
use pota_base::{List, MOST_PROCESSES, NoMemory, Refused};
use std::alloc::Global;

/// Where an event comes from: a source and a line in it, both counted from 1.
#[derive(Clone, Copy, Debug, PartialEq, Eq)]
pub struct Origin {
    pub source: u32,
    pub line: u32,
}

/// A log of one batch, and where each of its events comes from, in the same order.
#[derive(Debug, Drop)]
pub struct Merged {
    pub log: Log,
    pub origins: List<Origin>,
}

// No `vars` line for so many processes.
fn no_lines(alloc: Global, procs: usize) -> Result<List<u32>, NoMemory>
    requires { procs ≤ most_processes }
    ensures { IfOk result (λ lines. lines ≡ replicate procs 0) }
{
    let mut lines = List::new(alloc);
    for _process in 0..procs {
        lines.push(0)?;
    }
    Ok(lines)
}

// The sources merged, where they have no fault.
fn merged_by(
    alloc: Global,
    sources: &[Log],
    owners: &[Option<u32>; MOST_PROCESSES],
) -> Result<Merged, NoMemory>
    requires some { 0 < length sources.now }
    requires logs { AllByRecursion IsSource sources.now }
    requires judged { IsJudged sources.now owners.now }
    ensures { IfOk result (λ m. m ≡ merged sources.now) }
{
    let first = &sources[0].header;
    let procs = first.procs.len();
    let vars = variables(alloc, sources, owners, procs)?;
    let gathered = Gathered::of(alloc, sources, owners, procs)?;
    let header = Header {
        version: first.version,
        procs: copy_of(alloc, first.procs.as_slice())?,
        vars,
        var_lines: no_lines(alloc, procs)?,
    };
    let mut batches = List::new(alloc);
    batches.push(gathered.events)?;
    Ok(Merged {
        log: Log { header, batches },
        origins: gathered.origins,
    })
}

/// The logs of the processes of one run, in any order, as one log of one batch: the events of each
/// process in turn, each with its number, from 1, as its line. Where the sources can't be merged it
/// is the first fault, by source.
///
/// Each source is a log that reading gave, so that its header has its lines. There are no lines in
/// the header of the merged log. Clocks that are left out stay so.
pub fn merge(alloc: Global, sources: &[Log]) -> Result<Merged, Refused<MergeFault>>
    requires some { 0 < length sources.now }
    requires few { length sources.now < 2 ^ 32 }
    requires logs { AllByRecursion IsSource sources.now }
    ensures ok { IfOk result (λ m. m ≡ merged sources.now) }
    ensures faultless { IfOk result (λ _m. merge_fault sources.now ≡ None) }
    ensures fault { IfFault result (λ f. merge_fault sources.now ≡ Some f) }
{
    match judge(sources) {
        Ok(owners) => Ok(merged_by(alloc, sources, &owners)?),
        Err(fault) => Err(Refused::Fault(fault)),
    }
}
