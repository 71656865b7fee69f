//! Texts of logs.

use pota_base::{List, NoMemory};
use std::alloc::Global;

/// Logs of two processes, each with the lines of one of them.
pub const OF_Q: &[u8] = b"pota-log 1\nprocs P Q\nvars Q y=0\nev Q 0,1 int y=1\nend\n";

pub const OF_P: &[u8] = b"pota-log 1\nprocs P Q\nvars P x=0\nev P 1,0 int x=1\nend\n";

/// It has lines of no process.
pub const OF_NONE: &[u8] = b"pota-log 1\nprocs P Q\nend\n";

/// Puts the text behind those that are there, so many times.
pub fn put(texts: &mut List<u8>, text: &[u8], count: usize) -> Result<(), NoMemory> {
    for _ in 0..count {
        texts.extend_from_slice(text)?;
    }
    Ok(())
}

/// Two texts, one behind the other.
pub fn both(alloc: Global, first: &[u8], second: &[u8]) -> Result<List<u8>, NoMemory> {
    let mut texts = List::new(alloc);
    put(&mut texts, first, 1)?;
    put(&mut texts, second, 1)?;
    Ok(texts)
}
