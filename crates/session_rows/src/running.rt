//! One run of a case, and what it tells.
ghost use Rattle.std.specs.Prelude.{◌≤◌};
ghost use Rattle.pota_base.specs.Limits.{most_workers};

use crate::case::{Case, WatchKind};
use crate::log::{Logged, read};
use crate::opening::session_of;
use crate::taking::{Taken, take};
use crate::telling::{Watched, tell, tell_fault, tell_number};
use event_log::Event;
use pota_base::{List, NoMemory, Steps};
use pota_names::Name;
use session::Session;
use std::alloc::{AllocError, Global};
use std::sync::Arc;
use std::sync::ledger::Ledger;
use std::thread::Threads;
use turning_watch::{Counts, Turning};
use watch::{Calm, Handed, Owing, Stable, Watch};

/// How a run is made.
#[derive(Clone, Copy)]
pub struct Setting {
    pub workers: u32,
    /// The cutting of the events, none for the batches of the log.
    pub cutting: Option<u64>,
}

// What is told behind a batch.
fn tell_behind(
    told: &mut String,
    taken: Taken,
    session: &Session,
    watched: Watched,
) -> Result<(), AllocError> {
    match taken {
        Taken::Whole => {}
        Taken::Refused(fault) => tell_fault(told, fault)?,
        Taken::Unfit => told.push_str("a batch that may not be taken\n")?,
    }
    tell(told, session, watched)
}

// Takes all batches, and gives what is told: behind each, or of a cutting behind the last alone.
fn take_all<R: Threads + Sync, L: Ledger>(
    rt: &R,
    alloc: Global,
    session: &mut Session,
    batches: Vec<List<Event>>,
    setting: Setting,
    watched: Watched,
    steps: &mut Steps<L>,
) -> Result<String, NoMemory>
    requires some { 1 ≤ setting.workers }
    requires few { setting.workers ≤ most_workers }
{
    let mut told = String::new(alloc);
    for batch in batches {
        let taken = take(rt, session, batch, setting.workers, steps)?;
        if setting.cutting.is_some() {
            told.clear();
        }
        tell_behind(&mut told, taken, session, watched)?;
    }
    Ok(told)
}

// One watch more, if the name is one.
fn hand(
    alloc: Global,
    watches: &mut Vec<Handed>,
    name: &str,
    watch: Box<dyn Watch + Send>,
) -> Result<(), NoMemory> {
    if let Some(name) = Name::new(alloc, name.as_bytes())? {
        watches.push(Handed { name, watch })?;
    }
    Ok(())
}

// What a run with these watches tells of its batches, none where the log or the formula is not one.
fn told_with<R: Threads + Sync, L: Ledger>(
    rt: &R,
    alloc: Global,
    case: &Case,
    setting: Setting,
    watches: Vec<Handed>,
    counts: &Counts,
    steps: &mut Steps<L>,
) -> Result<Option<String>, NoMemory>
    requires some { 1 ≤ setting.workers }
    requires few { setting.workers ≤ most_workers }
{
    let Some(Logged { header, batches }) = read(alloc, case.log.as_str(), setting.cutting)? else {
        return Ok(None);
    };
    let Some(mut session) = session_of(alloc, case.formula.as_str(), header, watches)? else {
        return Ok(None);
    };
    let watched = Watched {
        watches: case.watches.as_slice(),
        counts,
    };
    let told = take_all(rt, alloc, &mut session, batches, setting, watched, steps);
    drop(session);
    Ok(Some(told?))
}

// The same with the watches that the case wants.
fn told_of_batches<R: Threads + Sync, L: Ledger>(
    rt: &R,
    alloc: Global,
    case: &Case,
    setting: Setting,
    counts: &Arc<Counts>,
    steps: &mut Steps<L>,
) -> Result<Option<String>, NoMemory>
    requires some { 1 ≤ setting.workers }
    requires few { setting.workers ≤ most_workers }
{
    let mut watches = Vec::new(alloc);
    for wanted in &case.watches {
        let name = wanted.name.as_str();
        match wanted.kind {
            WatchKind::Stable => {
                hand(alloc, &mut watches, name, Box::new(alloc, Stable::new())?)?
            }
            WatchKind::Owing => hand(alloc, &mut watches, name, Box::new(alloc, Owing::new())?)?,
            WatchKind::Calm => hand(alloc, &mut watches, name, Box::new(alloc, Calm::new())?)?,
            WatchKind::Turning => {
                let turning = Turning::new(Arc::try_clone(counts)?);
                hand(alloc, &mut watches, name, Box::new(alloc, turning)?)?
            }
        }
    }
    told_with(rt, alloc, case, setting, watches, counts, steps)
}

// A text without its first line.
fn behind_first_line(alloc: Global, text: &str) -> Result<String, AllocError> {
    let (_, rest) = text.split_once('\n').unwrap_or((text, ""));
    String::from_str(alloc, rest)
}

/// What a run tells, none where the log or the formula is not one.
pub fn run<R: Threads + Sync, L: Ledger>(
    rt: &R,
    alloc: Global,
    case: &Case,
    setting: Setting,
    steps: &mut Steps<L>,
) -> Result<Option<String>, NoMemory>
    requires some { 1 ≤ setting.workers }
    requires few { setting.workers ≤ most_workers }
{
    let counts = Counts::new(alloc)?;
    let Some(mut told) = told_of_batches(rt, alloc, case, setting, &counts, steps)? else {
        return Ok(None);
    };
    if setting.cutting.is_some() {
        told = behind_first_line(alloc, told.as_str())?;
    }
    tell_number(&mut told, "dropped ", counts.dropped())?;
    told.push('\n')?;
    Ok(Some(told))
}
