//! The text of a log that is too long to be stored.

use row_cases::{put_clock, put_names, put_number};
use std::alloc::{AllocError, Global};

const PROCESSES: usize = 32;

/// How many events the large log has.
const EVENTS: u32 = 50_000;

// Appends the event of this number, of a process with this clock. Each third event sends to the
// next process, whose next event receives.
fn put_event(to: &mut Vec<u8>, number: u32, clock: &[u32]) -> Result<(), AllocError> {
    let process = number % 32;
    to.extend_from_slice(b"ev P")?;
    put_number(to, process + 1)?;
    to.push(b' ')?;
    put_clock(to, clock)?;
    if number % 3 == 1 {
        to.extend_from_slice(b" send P")?;
        put_number(to, (process + 1) % 32 + 1)?;
        to.push(b' ')?;
        put_number(to, number)?;
    } else if number % 3 == 2 {
        to.extend_from_slice(b" recv P")?;
        put_number(to, (process + 31) % 32 + 1)?;
        to.push(b' ')?;
        put_number(to, number.saturating_sub(1))?;
    } else {
        to.extend_from_slice(b" int")?;
    }
    to.extend_from_slice(b" n=")?;
    put_number(to, number)?;
    to.push(b'\n')?;
    Ok(())
}

/// A log of 32 processes with one variable each, and 50,000 events of which a third send and a
/// third receive. Its clocks are those of Fidge and Mattern.
pub fn large_log(alloc: Global) -> Result<Vec<u8>, AllocError> {
    let mut log = Vec::new(alloc);
    log.extend_from_slice(b"pota-log 1\n")?;
    put_names(&mut log, 32)?;
    for i in 0..32_u32 {
        log.extend_from_slice(b"vars P")?;
        put_number(&mut log, i + 1)?;
        log.extend_from_slice(b" n=0\n")?;
    }
    let mut clocks = [[0_u32; PROCESSES]; PROCESSES];
    for number in 0..EVENTS {
        let process = number as usize % PROCESSES;
        if number % 3 == 2 {
            let seen = clocks[(process + PROCESSES - 1) % PROCESSES];
            for other in 0..PROCESSES {
                clocks[process][other] = clocks[process][other].max(seen[other]);
            }
        }
        clocks[process][process] = clocks[process][process].saturating_add(1);
        let clock = clocks[process];
        put_event(&mut log, number, clock.as_slice())?;
    }
    log.extend_from_slice(b"end\n")?;
    Ok(log)
}
