//! Numbers of 16 bits as numbers of 64.
ghost use Rattle.std.specs.Prelude.{◌≡◌, ◌+◌, ◌≤◌, length, take, drop, IfOk};

use pota_base::NoMemory;
use pull_system::{Floor, Rows};
use std::alloc::Global;

/// How many words are made wide before they are appended.
const PIECE: usize = 128;

/// The same numbers in 64 bits each.
pub(crate) fn widen(from: &[u16], into: &mut [u64])
    requires { length into.old ≡ length from.now }
    ensures { into.new ≡ from.now }
{
    for i in 0..from.len() {
        into[i] = from[i] as u64;
    }
}

/// The same numbers in 64 bits each, in memory of their own.
fn wide_words(alloc: Global, from: &[u16]) -> Result<Vec<u64>, NoMemory>
    ensures { IfOk result (λ words. words.items ≡ from.now) }
{
    let mut words = Vec::with_capacity(alloc, from.len())?;
    let mut piece = [0; PIECE];
    while words.len() < from.len() {
        let first = words.len();
        let size = (from.len() - first).min(PIECE);
        let piece = &mut piece[..size];
        widen(&from[first..first + size], piece);
        words.extend_from_slice(piece)?;
    }
    Ok(words)
}

/// The same rows in 64 bits.
pub fn widened(alloc: Global, rows: &Rows) -> Result<Floor, NoMemory>
    ensures { IfOk result (λ floor. floor ≡ rows.now) }
{
    let words = wide_words(alloc, rows.as_words())?;
    Floor::from_words(alloc, rows.shape(), words)
}
