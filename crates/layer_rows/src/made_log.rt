//! The text of a log that is made from a number.
ghost use Rattle.event_log.specs.Laws.{IsLog};

use event_log::{Log, Reader};
use log_writing::write_log;
use pota_base::{NoMemory, Refused};
use std::alloc::{AllocError, Global};
use trace_gen::generate;
use vector_clock::check;

/// What a log is made from.
#[derive(Clone, Copy)]
pub struct Numbers {
    pub seed: u64,
    pub procs: u32,
    pub events: u32,
}

// What a call gave, or want of memory.
fn given<T>(answer: Result<T, NoMemory>) -> Result<T, AllocError> {
    match answer {
        Ok(value) => Ok(value),
        Err(_) => Err(AllocError),
    }
}

// Whether reading the text finds no fault.
fn is_read(alloc: Global, text: &[u8]) -> Result<bool, AllocError> {
    let mut reader = Reader::new(alloc);
    let fed = given(reader.feed(text))?;
    Ok(fed.fault.is_none() && reader.finish().is_none())
}

// Whether the clocks and messages of the log have no fault.
#[tactic(auto, using(vector_clock::proofs::BatchLaws::text_can_be_checked))]
fn is_checked(alloc: Global, log: &Log) -> Result<bool, AllocError>
    requires { IsLog log.now }
{
    match check(alloc, log) {
        Ok(_) => Ok(true),
        Err(Refused::Fault(_)) => Ok(false),
        Err(Refused::NoMemory) => Err(AllocError),
    }
}

/// The text of the log, or what is wrong with the numbers or with it.
pub fn made_text(alloc: Global, numbers: &Numbers) -> Result<String, AllocError> {
    if numbers.procs < 1 || numbers.procs > 32 || numbers.events > 50_000 {
        return String::from_str(alloc, "no such log");
    }
    let Ok(log) = generate(alloc, numbers.seed, numbers.procs, numbers.events) else {
        return Err(AllocError);
    };
    if !is_checked(alloc, &log)? {
        return String::from_str(alloc, "its clocks or messages have a fault");
    }
    let text = given(write_log(alloc, &log))?;
    if !is_read(alloc, text.as_slice())? {
        return String::from_str(alloc, "its text has a fault");
    }
    String::from_utf8_lossy(alloc, text.as_slice())
}
