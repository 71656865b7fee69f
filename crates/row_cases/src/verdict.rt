//! Running a case, and what it says.

use crate::Case;
use crate::came::Failing;
use crate::cut_short::judge_each;
use crate::meeting::Meeting;
use crate::run::{Setting, run};
use pota_base::FreeGate;
use std::alloc::{AllocError, Global};
use std::thread::Threads;

// What comes out otherwise than it must where workers 1 and 2 wait for each other, and enter so
// often.
fn judge_meeting<R: Threads + Sync>(
    rt: &R,
    alloc: Global,
    case: &Case,
    setting: &Setting,
    times: u32,
) -> Result<Option<String>, AllocError> {
    let gate = Meeting::new();
    let came = run(rt, alloc, case, setting, &gate)?;
    if !gate.was_kept(times) {
        return Ok(Some(format!(in alloc; "the workers did not meet")?));
    }
    came.differs(alloc, case)
}

// What comes out of the run with this setting otherwise than it must.
fn judge_run<R: Threads + Sync>(
    rt: &R,
    alloc: Global,
    case: &Case,
    setting: &Setting,
) -> Result<Option<String>, AllocError> {
    match case.meetings {
        Some(times) => judge_meeting(rt, alloc, case, setting, times),
        None => {
            let came = run(rt, alloc, case, setting, &FreeGate)?;
            came.differs(alloc, case)
        }
    }
}

// What comes out of all runs over pieces of this size with these words.
fn judge_over<R: Threads + Sync>(
    rt: &R,
    alloc: Global,
    case: &Case,
    words: &Vec<String>,
    piece: usize,
) -> Result<Option<String>, AllocError> {
    let mut setting = Setting::new(case, words, piece)?;
    let mut said = judge_run(rt, alloc, case, &setting)?;
    if said.is_none() && case.each_read {
        said = judge_each(rt, alloc, case, &mut setting, Failing::Read)?;
        setting = Setting::new(case, words, piece)?;
    }
    if said.is_none() && case.each_write {
        said = judge_each(rt, alloc, case, &mut setting, Failing::Write)?;
    }
    match said {
        Some(said) => Ok(Some(format!(in alloc; "over pieces of {piece}: {said}")?)),
        None => Ok(None),
    }
}

// What comes out of all runs with these words.
fn judge_words<R: Threads + Sync>(
    rt: &R,
    alloc: Global,
    case: &Case,
    words: &Vec<String>,
) -> Result<Option<String>, AllocError> {
    for piece in case.sizes(alloc)? {
        if let Some(said) = judge_over(rt, alloc, case, words, piece)? {
            return Ok(Some(said));
        }
    }
    Ok(None)
}

// The words of the case, with so many workers asked for.
fn words_with(alloc: Global, case: &Case, workers: &String) -> Result<Vec<String>, AllocError> {
    let mut words = case.words.clone()?;
    words.push(String::from_str(alloc, "--workers")?)?;
    words.push(workers.clone()?)?;
    Ok(words)
}

// What comes out of the runs with each of the numbers of workers.
fn judge_workers<R: Threads + Sync>(
    rt: &R,
    alloc: Global,
    case: &Case,
) -> Result<Option<String>, AllocError> {
    for workers in &case.workers {
        let words = words_with(alloc, case, workers)?;
        if let Some(said) = judge_words(rt, alloc, case, &words)? {
            return Ok(Some(format!(in alloc; "with {workers} workers: {said}")?));
        }
    }
    Ok(None)
}

/// Runs the case through the call, and says what came out otherwise than it must. Where it has no
/// status, it is not run.
///
/// # Errors
///
/// Where there is no memory.
pub fn judge<R: Threads + Sync>(
    rt: &R,
    alloc: Global,
    case: &Case,
) -> Result<Option<String>, AllocError> {
    if let Some(line) = &case.unread {
        return Ok(Some(format!(in alloc; "no such line: {line}")?));
    }
    if case.status.is_none() {
        return Ok(None);
    }
    if case.workers.is_empty() {
        return judge_words(rt, alloc, case, &case.words);
    }
    judge_workers(rt, alloc, case)
}

/// Runs the case through the call, once and with its own words, and makes what comes out what must
/// come out.
///
/// # Errors
///
/// Where there is no memory.
pub fn want_what_comes<R: Threads + Sync>(
    rt: &R,
    alloc: Global,
    case: &mut Case,
) -> Result<(), AllocError> {
    let setting = Setting::new(case, &case.words, usize::MAX)?;
    let came = run(rt, alloc, case, &setting, &FreeGate)?;
    came.be_wanted(case);
    Ok(())
}
