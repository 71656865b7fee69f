//! The bytes of an input, kept.

ghost use Rattle.std.specs.Prelude.{◌≡◌, ◌-◌, ◌≤◌, ◌<◌, [], length, take};
ghost use Rattle.pota_base.specs.Limits.{longest_kept};

use crate::intake::{Intake, Turn};
use pota_base::{LONGEST_KEPT, List, NoMemory};
use std::alloc::Global;

/// The first 67,108,865 bytes of an input, or all where it has fewer.
#[derive(Debug, Drop)]
pub struct Kept {
    pub bytes: List<u8>,
    ghost few: { length bytes ≤ longest_kept },
}

impl Kept {
    /// No byte. It takes no memory.
    pub fn new(alloc: Global) -> Kept
        ensures { result.bytes ≡ [] }
    {
        Kept {
            bytes: List::new(alloc),
        }
    }
}

impl Intake for Kept {
    ghost open_ = { λ k bytes. (k.bytes ≡ bytes) × (length bytes < longest_kept) };

    ghost done = { λ k bytes. (k.bytes ≡ take longest_kept bytes) × (longest_kept ≤ length bytes) };

    ghost room = { λ k. longest_kept - length k.bytes };

    fn take(&mut self, piece: &[u8]) -> Result<Turn, NoMemory> {
        let room = LONGEST_KEPT - self.bytes.len();
        if piece.len() < room {
            self.bytes.extend_from_slice(piece)?;
            Ok(Turn::More)
        } else {
            self.bytes.extend_from_slice(&piece[..room])?;
            Ok(Turn::Done)
        }
    }
}
