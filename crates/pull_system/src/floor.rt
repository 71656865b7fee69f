ghost use Rattle.std.specs.Prelude.{◌≡◌, ◌+◌, ◌*◌, length, sum, IfOk};

use pota_base::{NoMemory, Shape};
use std::alloc::Global;
use std::marker::Model;

/// Rows in words of 64 bits, as a shared table takes them to begin from. Contracts see them as they
/// see `Rows`.
#[derive(Debug, Drop)]
pub struct Floor {
    shape: Shape,
    words: Vec<u64>,
}

impl Model for Floor {
    ghost use Rattle.pull_system.specs.Rows.{RowsView, AreRows};

    ghost Value = { RowsView };

    ghost view = { λ floor. record { lens = floor.shape; words = floor.words.items } };

    ghost invariant = { λ floor. AreRows record { lens = floor.shape; words = floor.words.items } };
}

impl Floor {
    ghost use Rattle.pull_system.specs.Rows.{AreRows};

    /// Rows of a shape with these words, row by row.
    pub fn from_words(alloc: Global, shape: &Shape, words: Vec<u64>) -> Result<Floor, NoMemory>
        requires { length words.items ≡ (sum shape.now + 1) * length shape.now }
        ensures { IfOk result (λ floor. floor ≡ record { lens = shape.now; words = words.items }) }
    {
        let shape = shape.copy(alloc)?;
        Ok(Floor { shape, words })
    }

    pub fn shape(&self) -> &Shape
        ensures shape { result.now ≡ self.now.lens }
        ensures rows { AreRows self.now }
    {
        &self.shape
    }

    /// The words of all rows, row by row.
    pub fn as_words(&self) -> &[u64]
        ensures words { result.now ≡ self.now.words }
        ensures rows { AreRows self.now }
    {
        self.words.as_slice()
    }
}
