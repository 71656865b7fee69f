//! Parts of logs that are too long to be stored.

use pota_base::MOST_PROCESSES;
use std::alloc::AllocError;

/// Appends the number in decimal digits.
///
/// # Errors
///
/// Where there is no memory.
pub fn put_number(to: &mut Vec<u8>, number: u32) -> Result<(), AllocError> {
    let mut digits = itoa::Buffer::new();
    to.extend_from_slice(digits.format(number).as_bytes())
}

/// Appends a `procs` line of so many names.
///
/// # Errors
///
/// Where there is no memory.
pub fn put_names(to: &mut Vec<u8>, count: u32) -> Result<(), AllocError> {
    to.extend_from_slice(b"procs")?;
    for i in 0..count {
        to.extend_from_slice(b" P")?;
        put_number(to, i.saturating_add(1))?;
    }
    to.push(b'\n')?;
    Ok(())
}

/// Appends so many lines of local events of the only process, `P`.
pub fn put_events(to: &mut Vec<u8>, count: u32) -> Result<(), AllocError> {
    for i in 0..count {
        to.extend_from_slice(b"ev P ")?;
        put_number(to, i.saturating_add(1))?;
        to.extend_from_slice(b" int\n")?;
    }
    Ok(())
}

/// Appends a line of so many letters.
pub fn put_letters(to: &mut Vec<u8>, count: u32) -> Result<(), AllocError> {
    for _ in 0..count {
        to.push(b'a')?;
    }
    to.push(b'\n')?;
    Ok(())
}

/// Appends the clock.
///
/// # Errors
///
/// Where there is no memory.
pub fn put_clock(to: &mut Vec<u8>, clock: &[u32]) -> Result<(), AllocError> {
    for (i, count) in clock.iter().enumerate() {
        if i > 0 {
            to.push(b',')?;
        }
        put_number(to, *count)?;
    }
    Ok(())
}

// Appends so many local events of the process of this index, which know no event of another one.
fn put_own_events(to: &mut Vec<u8>, process: usize, count: u32) -> Result<(), AllocError> {
    let mut clock = [0_u32; MOST_PROCESSES];
    for i in 0..count {
        clock[process % MOST_PROCESSES] = i.saturating_add(1);
        to.extend_from_slice(b"ev P")?;
        put_number(to, (process % MOST_PROCESSES) as u32 + 1)?;
        to.push(b' ')?;
        put_clock(to, clock.as_slice())?;
        to.extend_from_slice(b" int n=")?;
        put_number(to, i.saturating_add(1))?;
        to.push(b'\n')?;
    }
    Ok(())
}

/// Appends the `procs` line of 32 processes, a `vars` line and so many local events of each.
pub fn put_alone(to: &mut Vec<u8>, count: u32) -> Result<(), AllocError> {
    put_names(to, 32)?;
    for i in 0..32_u32 {
        to.extend_from_slice(b"vars P")?;
        put_number(to, i + 1)?;
        to.extend_from_slice(b" n=0\n")?;
    }
    for process in 0..MOST_PROCESSES {
        put_own_events(to, process, count)?;
    }
    Ok(())
}
