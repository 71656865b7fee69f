//! The states of a log.

use event_log::{Item, Reader, States};
use log_fitting::{are_known, is_header};
use pota_base::{List, MOST_EVENTS, NoMemory};
use std::alloc::{AllocError, Global};

// The states, or want of memory.
fn read(alloc: Global, text: &[u8]) -> Result<Option<States>, NoMemory> {
    let mut reader = Reader::new(alloc);
    let fed = reader.feed(text)?;
    if fed.fault.is_some() {
        return Ok(None);
    }
    let mut header = None;
    let mut events = List::new(alloc);
    for item in fed.items.into_vec() {
        match item {
            Item::Header(given) => header = Some(given),
            Item::Event(event) => events.push(event)?,
            Item::BatchEnd | Item::End => {}
        }
    }
    let Some(header) = header else {
        return Ok(None);
    };
    if events.len() > MOST_EVENTS || !is_header(&header) {
        return Ok(None);
    }
    if !are_known(&header, events.as_slice()) {
        return Ok(None);
    }
    let mut states = States::new(alloc, header)?;
    states.extend(events)?;
    Ok(Some(states))
}

/// The states of the run that the text logs, `None` where it has a fault.
pub fn states_of(alloc: Global, text: &[u8]) -> Result<Option<States>, AllocError> {
    match read(alloc, text) {
        Ok(states) => Ok(states),
        Err(_) => Err(AllocError),
    }
}
