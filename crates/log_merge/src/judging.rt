//! The first fault of the sources.

ghost use Rattle.std.specs.Prelude.{◌≡◌, ◌+◌, ◌-◌, ◌≤◌, ◌<◌, ◌∷◌, ◌++◌, [], length, MatchResult};
ghost use Rattle.std.specs.Prelude.{IfErr, OnOk, OnErr, None, Some};
ghost use Rattle.std.specs.Option.{option_map};
ghost use Rattle.std.specs.List.{AllByRecursion};
ghost use Rattle.pota_base.specs.Limits.{most_events};
ghost use Rattle.event_log.specs.declared.log.Event.{Event};
ghost use Rattle.log_merge.specs.Sources.{IsSource, seen_of, own_lines, events_in, events_of};
ghost use Rattle.log_merge.specs.Sources.{all_events};
ghost use Rattle.log_merge.specs.Faults.{same_procs, same_start, differs, not_alone, one_too_many};
ghost use Rattle.log_merge.specs.Faults.{event_too_many, source_fault, placed, merge_fault};
ghost use Rattle.log_merge.specs.Owners.{AreOwners, IsJudged};
ghost use Rattle.log_merge.specs.inside.Owners.{IsOfAProcess, with_owner};

use crate::fault::Found;
use crate::seen::{Seen, line_at, seen_in};
use event_log::{Event, Header, Log};
use fault_kinds::{MergeCode, MergeFault};
use pota_base::{List, MOST_EVENTS, MOST_PROCESSES, MOST_SOURCES};

// Whether the headers name the same processes.
fn same_procs(a: &Header, b: &Header) -> bool
    ensures { result ≡ same_procs a.now b.now }
{
    if a.procs.len() != b.procs.len() {
        return false;
    }
    for i in 0..a.procs.len() {
        if a.procs.get(i).as_bytes() != b.procs.get(i).as_bytes() {
            return false;
        }
    }
    true
}

// Whether the headers begin with the same two lines.
fn same_start(a: &Header, b: &Header) -> bool
    ensures { result ≡ same_start a.now b.now }
{
    a.version == b.version && same_procs(a, b)
}

// Whether the source begins otherwise than the first one.
fn differs(before: &[Log], source: &Log) -> Option<Found>
    ensures { result ≡ differs before.now source.now }
{
    match before {
        [] => None,
        [first, ..] => {
            if same_start(&first.header, &source.header) {
                None
            } else {
                Some(Found {
                    code: MergeCode::HeaderDiffers,
                    line: 2,
                })
            }
        }
    }
}

// Whether a source with these lines is more than the one source of one process.
fn not_alone(before: &[Log], seen: Seen, owners: &[Option<u32>; MOST_PROCESSES]) -> Option<Found>
    requires owners { AreOwners before.now owners.now }
    requires within { IsOfAProcess seen }
    ensures { result ≡ not_alone before.now seen }
{
    match seen {
        Seen::Nothing => None,
        Seen::One { process, line } => {
            if owners[process as usize].is_some() {
                Some(Found {
                    code: MergeCode::ProcessTwice,
                    line,
                })
            } else {
                None
            }
        }
        Seen::Two { line } => Some(Found {
            code: MergeCode::TwoProcesses,
            line,
        }),
    }
}

// Whether the source is the 33rd.
fn one_too_many(before: &[Log]) -> Option<Found>
    ensures { result ≡ one_too_many before.now }
{
    if before.len() == MOST_SOURCES {
        Some(Found {
            code: MergeCode::TooManySources,
            line: 1,
        })
    } else {
        None
    }
}

// Whether there are too many events with those of the source behind so many.
fn event_too_many(before: &[Log], source: &Log, count: usize) -> Option<Found>
    requires count { count ≡ events_in before.now }
    requires small { count ≤ most_events }
    ensures { result ≡ event_too_many before.now source.now }
{
    match line_at(source.batches.as_slice(), MOST_EVENTS - count) {
        None => None,
        Some(line) => Some(Found {
            code: MergeCode::TooManyEvents,
            line,
        }),
    }
}

// The first fault of a source behind those before it.
fn source_fault(
    before: &[Log],
    source: &Log,
    seen: Seen,
    owners: &[Option<u32>; MOST_PROCESSES],
    count: usize,
) -> Option<Found>
    requires owners { AreOwners before.now owners.now }
    requires seen { seen ≡ seen_of (own_lines source.now) }
    requires within { IsOfAProcess seen }
    requires count { count ≡ events_in before.now }
    requires small { count ≤ most_events }
    ensures { result ≡ source_fault before.now source.now }
{
    differs(before, source)
        .or(not_alone(before, seen, owners))
        .or(one_too_many(before))
        .or(event_too_many(before, source, count))
}

// Which source has the lines of which process, with those of one source more.
fn note(owners: &mut [Option<u32>; MOST_PROCESSES], seen: Seen, number: u32)
    requires { IsOfAProcess seen }
    ensures { owners.new ≡ with_owner owners.old seen number }
{
    if let Seen::One { process, .. } = seen {
        owners[process as usize] = Some(number);
    }
}

// How many events the batches have.
fn count_of(batches: &[List<Event>]) -> usize
    requires { length (all_events batches.now) ≤ most_events }
    ensures { result ≡ length (all_events batches.now) }
{
    let mut count = 0;
    for batch in batches {
        count += batch.len();
    }
    count
}

/// What is known of sources that have no fault: which of them has the lines of which process, and
/// how many events they have.
#[derive(Clone, Copy, Debug)]
pub struct Joined {
    owners: [Option<u32>; MOST_PROCESSES],
    count: usize,
}

impl Joined {
    ghost use Rattle.log_merge.specs.Owners.{HasJoined};

    /// No sources.
    pub fn new() -> Joined
        ensures { HasJoined result [] }
    {
        Joined {
            owners: [None; MOST_PROCESSES],
            count: 0,
        }
    }

    /// Joins one source more to those before it, or gives its first fault.
    pub fn join(&mut self, before: &[Log], source: &Log) -> Result<(), MergeFault>
        requires joined { HasJoined self.old before.now }
        requires source { IsSource source.now }
        ensures ok { OnOk result (source_fault before.now source.now ≡ None) }
        ensures fault { IfErr result (λ f. option_map (placed (length before.now + 1))
            (source_fault before.now source.now) ≡ Some f) }
        ensures next { OnOk result (HasJoined self.new (before.now ++ source.now ∷ [])) }
        ensures same { OnErr result (self.new ≡ self.old) }
    {
        let seen = seen_in(source);
        let number = before.len() as u32 + 1;
        if let Some(found) = source_fault(before, source, seen, &self.owners, self.count) {
            return Err(MergeFault {
                code: found.code,
                source: number,
                line: found.line,
            });
        }
        note(&mut self.owners, seen, number);
        self.count += count_of(source.batches.as_slice());
        Ok(())
    }
}

/// Which source has the lines of which process, or the first fault of the sources.
pub fn judge(sources: &[Log]) -> Result<[Option<u32>; MOST_PROCESSES], MergeFault>
    requires { AllByRecursion IsSource sources.now }
    ensures { MatchResult result (IsJudged sources.now) (λ f. merge_fault sources.now ≡ Some f) }
{
    let mut joined = Joined::new();
    'sources: for i in 0..sources.len() {
        joined.join(&sources[..i], &sources[i])?;
    }
    Ok(joined.owners)
}
