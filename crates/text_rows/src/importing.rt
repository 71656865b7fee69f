//! What importing a text gives, in words.

use event_log::{Event, Log};
use pota_base::Refused;
use std::alloc::{AllocError, Global};
use vclog_import::{ImportCode, ImportFault, import};

/// The most events that are spelled.
const MOST_SPELLED: usize = 4;

fn code_word(code: ImportCode) -> &'static str {
    match code {
        ImportCode::BadHostLine => "bad-host-line",
        ImportCode::BadClock => "bad-clock",
        ImportCode::TooManyHosts => "too-many-hosts",
        ImportCode::TooManyEvents => "too-many-events",
        ImportCode::Truncated => "truncated",
        ImportCode::TooLong => "too-long",
        ImportCode::HostClash => "host-clash",
        ImportCode::UnknownHost => "unknown-host",
    }
}

fn fault_text(alloc: Global, fault: ImportFault) -> Result<String, AllocError> {
    Ok(format!(in alloc; "fault {} {}", code_word(fault.code), fault.line)?)
}

// Appends the name of a process.
fn put_name(text: &mut String, log: &Log, process: usize) -> Result<(), AllocError> {
    if process < log.header.procs.len() {
        let name = log.header.procs.get(process).as_bytes();
        if let Ok(name) = std::str::from_utf8(name) {
            text.push_str(name)?;
        }
    }
    Ok(())
}

// Appends the components of a clock.
fn put_clock(alloc: Global, text: &mut String, clock: &[u32]) -> Result<(), AllocError> {
    let mut before = " ";
    for count in clock {
        let count = format!(in alloc; "{}{}", before, *count)?;
        text.push_str(count.as_str())?;
        before = ",";
    }
    Ok(())
}

fn put_event(alloc: Global, text: &mut String, log: &Log, event: &Event) -> Result<(), AllocError> {
    text.push_str("; ")?;
    put_name(text, log, event.process as usize)?;
    let line = format!(in alloc; " {}", event.line)?;
    text.push_str(line.as_str())?;
    put_clock(alloc, text, event.clock.as_slice())?;
    for assign in event.assigns.as_slice() {
        let value = format!(in alloc; " {}", assign.value)?;
        text.push_str(value.as_str())?;
    }
    Ok(())
}

fn put_events(
    alloc: Global,
    text: &mut String,
    log: &Log,
    events: &[Event],
) -> Result<(), AllocError> {
    if events.len() > MOST_SPELLED {
        let count = format!(in alloc; "; {} events", events.len())?;
        text.push_str(count.as_str())?;
        return Ok(());
    }
    for event in events {
        put_event(alloc, text, log, event)?;
    }
    Ok(())
}

fn log_text(alloc: Global, log: &Log) -> Result<String, AllocError> {
    let mut text = String::from_str(alloc, "log")?;
    for process in 0..log.header.procs.len() {
        text.push_str(" ")?;
        put_name(&mut text, log, process)?;
    }
    for batch in log.batches.as_slice() {
        put_events(alloc, &mut text, log, batch.as_slice())?;
    }
    Ok(text)
}

/// The log that the text is, or its first fault.
pub fn answer_of(alloc: Global, text: &[u8]) -> Result<String, AllocError> {
    match import(alloc, text) {
        Ok(log) => log_text(alloc, &log),
        Err(Refused::Fault(fault)) => fault_text(alloc, fault),
        Err(Refused::NoMemory) => Err(AllocError),
    }
}
