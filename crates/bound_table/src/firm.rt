//! Which rows of a table are firm.
ghost use Rattle.std.specs.Prelude.{◌≡◌, ℕ, true, false, length, take, slice_index};

use pota_base::{MOST_PROCESSES, Shape};
use std::marker::Model;

/// Which rows are the least already: so many first ones of each process, and the bottom's or not.
#[derive(Debug, Drop)]
pub struct Firm {
    firsts: [u32; MOST_PROCESSES],
    procs: u32,
    bottom: bool,
}

impl Model for Firm {
    ghost use Rattle.std.specs.Prelude.{◌≤◌, take};
    ghost use Rattle.pota_base.specs.Limits.{most_processes};
    ghost use Rattle.bound_table.specs.Firm.{FirmView};

    ghost Value = { FirmView };

    ghost view = { λ firm. record {
      firsts = take firm.procs firm.firsts;
      bottom = firm.bottom;
    } };

    ghost invariant = { λ firm. firm.procs ≤ most_processes };
}

impl Firm {
    /// So many first rows of each process are firm, and the bottom's where `bottom` is true.
    pub fn new(shape: &Shape, firsts: [u32; MOST_PROCESSES], bottom: bool) -> Firm
        ensures { result ≡ record { firsts = take (length shape.now) firsts; bottom = bottom } }
    {
        let procs = shape.procs();
        Firm {
            firsts,
            procs,
            bottom,
        }
    }

    /// No row is firm.
    pub fn none(shape: &Shape) -> Firm
        ensures firsts { (process : ℕ) → slice_index result.firsts process ≡ 0 }
        ensures size { length result.firsts ≡ length shape.now }
        ensures bottom { result.bottom ≡ false }
    {
        // By its clause the lengths are those of a shape.
        let _procs = shape.procs();
        Firm::new(shape, [0; MOST_PROCESSES], false)
    }

    /// All rows are firm.
    pub fn all(shape: &Shape) -> Firm
        ensures { result ≡ record { firsts = shape.now; bottom = true } }
    {
        let mut firsts = [0; MOST_PROCESSES];
        firsts[..shape.procs() as usize].copy_from_slice(shape.lens());
        Firm::new(shape, firsts, true)
    }

    /// How many first rows of each process are firm.
    pub fn firsts(&self) -> &[u32]
        ensures { result.now ≡ self.now.firsts }
    {
        &self.firsts[..self.procs as usize]
    }

    /// Whether the bottom's row is firm.
    pub fn has_bottom(&self) -> bool
        ensures { result ≡ self.now.bottom }
    {
        self.bottom
    }
}
