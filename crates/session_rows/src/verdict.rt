//! Whether all runs of a case tell what they must.
ghost use Rattle.pota_base.specs.Blanks.{IsBlankOf};
ghost use Rattle.std.specs.Prelude.{◌<◌};

use crate::case::Case;
use crate::log::cuttings;
use crate::running::{Setting, run};
use crate::telling::tell_number;
use pota_base::{NoMemory, Steps};
use std::alloc::{AllocError, Global};
use std::marker::Brand;
use std::sync::ledger::{Blank, Ledger};
use std::thread::Threads;

fn tell_setting(text: &mut String, setting: Setting) -> Result<(), AllocError> {
    let Setting { workers, cutting } = setting;
    tell_number(text, "", workers as u64)?;
    text.push_str(" workers tell")?;
    if let Some(cutting) = cutting {
        tell_number(text, ", by cutting ", cutting)?;
    }
    text.push_str(":\n")
}

// What the run told, if that is not what it must tell.
fn difference(
    alloc: Global,
    setting: Setting,
    told: &str,
    wanted: &str,
) -> Result<Option<String>, AllocError> {
    if told == wanted {
        return Ok(None);
    }
    let mut said = String::new(alloc);
    tell_setting(&mut said, setting)?;
    said.push_str(told)?;
    Ok(Some(said))
}

// What the run tells, if that is not what it must tell.
fn differs<R: Threads + Sync, L: Ledger>(
    rt: &R,
    alloc: Global,
    case: &Case,
    setting: Setting,
    steps: &mut Steps<L>,
) -> Result<Option<String>, NoMemory> {
    let workers = setting.workers;
    if workers < 1 || workers > 16 {
        return Ok(Some(String::from_str(alloc, "a number of workers that is not 1 to 16")?));
    }
    match run(rt, alloc, case, setting, steps)? {
        Some(told) => Ok(difference(alloc, setting, told.as_str(), case.wanted.as_str())?),
        None => Ok(Some(String::from_str(alloc, "no log, or no formula of it")?)),
    }
}

// The same for each cutting.
fn differs_cut<R: Threads + Sync, L: Ledger>(
    rt: &R,
    alloc: Global,
    case: &Case,
    workers: u32,
    steps: &mut Steps<L>,
) -> Result<Option<String>, NoMemory> {
    let Some(ways) = cuttings(alloc, case.log.as_str())? else {
        return Ok(Some(String::from_str(alloc, "no log")?));
    };
    for cutting in 0..ways {
        let setting = Setting {
            workers,
            cutting: Some(cutting),
        };
        let said = differs(rt, alloc, case, setting, steps)?;
        if said.is_some() {
            return Ok(said);
        }
    }
    Ok(None)
}

// The same for each cutting, if the events are cut, by each number of workers.
fn differs_somewhere<R: Threads + Sync, L: Ledger>(
    rt: &R,
    alloc: Global,
    case: &Case,
    steps: &mut Steps<L>,
) -> Result<Option<String>, NoMemory> {
    for workers in &case.workers {
        let whole = Setting {
            workers: *workers,
            cutting: None,
        };
        let said = if case.cuttings {
            differs_cut(rt, alloc, case, *workers, steps)?
        } else {
            differs(rt, alloc, case, whole, steps)?
        };
        if said.is_some() {
            return Ok(said);
        }
    }
    Ok(None)
}

// What is wrong with how the case is written.
fn fault_of(alloc: Global, case: &Case) -> Result<Option<String>, AllocError> {
    if let Some(line) = &case.unread {
        let mut said = String::from_str(alloc, "no such line: ")?;
        said.push_str(line.as_str())?;
        return Ok(Some(said));
    }
    if case.workers.is_empty() {
        return Ok(Some(String::from_str(alloc, "no number of workers")?));
    }
    Ok(None)
}

fn found<R: Threads + Sync, L: Ledger>(
    rt: &R,
    alloc: Global,
    case: &Case,
    steps: &mut Steps<L>,
) -> Result<String, NoMemory> {
    if let Some(fault) = fault_of(alloc, case)? {
        return Ok(fault);
    }
    match differs_somewhere(rt, alloc, case, steps)? {
        Some(said) => Ok(said),
        None => Ok(String::from_str(alloc, "ok")?),
    }
}

// The same, with steps that this ledger counts.
fn counted<R: Threads + Sync, L: Ledger>(
    rt: &R,
    alloc: Global,
    case: &Case,
    blank: Blank,
) -> Result<String, NoMemory>
    requires blank { IsBlankOf L.name L.parts blank }
{
    let mut steps = Steps::<L>::new(blank);
    found(rt, alloc, case, &mut steps)
}

/// `ok`, or what is told of the first run that told something else than it must.
pub fn judge<R: Threads + Sync>(rt: &R, alloc: Global, case: &Case) -> Result<String, AllocError> {
    match counted::<R, Brand>(rt, alloc, case, Blank::new(1)) {
        Ok(said) => Ok(said),
        Err(_) => Err(AllocError),
    }
}
