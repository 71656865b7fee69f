//! The words that are drawn.
ghost use Rattle.std.specs.Prelude.{◌≡◌};
ghost use Rattle.trace_gen.specs.Words.{first_state, next_state, word};

use rand_core::utils::NextWord;
use rand_pcg::Lcg64Xsh32;
use std::marker::Model;

/// A generator, seen as its state.
#[derive(Drop)]
pub struct Words {
    generator: Lcg64Xsh32,
}

impl Model for Words {
    ghost use Rattle.std.specs.Coded.{coded_ℕ};
    ghost use Rattle.std.specs.Prelude.{◌≡◌, ℕ};

    ghost Value = { ℕ };

    ghost coded = { coded_ℕ };

    ghost view = { λ w. w.generator.state };

    ghost invariant = { λ w. w.generator.increment ≡ 109 };
}

impl Words {
    /// The generator that a seed begins.
    pub fn new(seed: u64) -> Words
        ensures { result ≡ first_state seed }
    {
        Words {
            generator: Lcg64Xsh32::new(seed, 54),
        }
    }

    /// Draws the next word.
    pub fn draw(&mut self) -> u32
        ensures word { result ≡ word self.old }
        ensures state { self.new ≡ next_state self.old }
    {
        self.generator.next_word()
    }
}
