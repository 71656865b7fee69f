ghost use Rattle.std.specs.Prelude.{◌↔◌, All, IsTrue};
ghost use Rattle.pull_system.specs.System.{RisesWithin, IsPull};

use pota_base::{List, Shape};

/// Says of a vector `v` that `v[dst] >= table[v[src]]`.
///
/// The table has two entries more than the source has events, never falls, and stays within one
/// more than the length of the target.
#[derive(Debug, Drop)]
pub struct Pull {
    pub src: u32,
    pub dst: u32,
    pub table: List<u32>,
}

impl Pull {
    /// Whether this is a pull between processes of the shape.
    pub fn fits(&self, shape: &Shape) -> bool
        ensures { IsTrue result ↔ IsPull shape.now self.now }
    {
        if self.src >= shape.procs() || self.dst >= shape.procs() {
            return false;
        }
        let entries = shape.len_of(self.src) as usize + 2;
        let most = shape.len_of(self.dst) + 1;
        self.table.len() == entries && rises_within(self.table.as_slice(), most)
    }
}

/// Whether the entries never fall and none is above `most`.
fn rises_within(table: &[u32], most: u32) -> bool
    ensures { IsTrue result ↔ RisesWithin table.now most }
{
    let mut before = 0;
    for &entry in table {
        if entry < before || entry > most {
            return false;
        }
        before = entry;
    }
    true
}

/// Whether each is a pull between processes of the shape.
pub fn all_fit(pulls: &[Pull], shape: &Shape) -> bool
    ensures { IsTrue result ↔ All (IsPull shape.now) pulls.now }
{
    pulls.iter().all(|pull| pull.fits(shape))
}
