//! What the bytes of an input go into, piece by piece.

ghost use Rattle.std.specs.Prelude.{ℕ, ◌<◌, ◌++◌, List, length, IfOk};
ghost use Rattle.input_reading.specs.Intakes.{Takes};

use pota_base::NoMemory;

/// Whether bytes behind a piece may matter.
#[derive(Clone, Copy, Debug, PartialEq, Eq)]
pub enum Turn {
    More,
    Done,
}

/// What takes the bytes of an input.
///
/// `open_` holds of it and of the bytes that came so far, where more may matter, and `done` where
/// no byte behind them does. `room` is a bound on how many more may matter.
pub trait Intake {
    ghost open_: { Self → List ℕ → Type 0 };

    ghost done: { Self → List ℕ → Type 0 };

    ghost room: { Self → ℕ };

    /// Takes the next bytes. Without memory for them nothing is said of it from then on.
    fn take(&mut self, piece: &[u8]) -> Result<Turn, NoMemory>
        requires some { 0 < length piece.now }
        requires at { (bytes : List ℕ) × open_ self.old bytes }
        ensures { IfOk result (λ turn. (bytes : List ℕ) → open_ self.old bytes
            → Takes (open_ self.new) (done self.new) (room self.old) (room self.new)
            (bytes ++ piece.now) turn) };
}

/// What takes the bytes of an input for an aim (`For`), which its bytes alone don't name: as the
/// state that the lines of a certificate are checked from. The rest is as in `Intake`, and each of
/// those is one without an aim.
pub trait IntakeFor {
    ghost For: { Type 0 };

    ghost open_for: { For → Self → List ℕ → Type 0 };

    ghost done_for: { For → Self → List ℕ → Type 0 };

    ghost room_for: { Self → ℕ };

    /// Takes the next bytes. Without memory for them nothing is said of it from then on.
    fn take_for(&mut self, piece: &[u8]) -> Result<Turn, NoMemory>
        requires some { 0 < length piece.now }
        requires at { (aim : For) × (bytes : List ℕ) × open_for aim self.old bytes }
        ensures { IfOk result (λ turn. (aim : For) (bytes : List ℕ)
            → open_for aim self.old bytes
            → Takes (open_for aim self.new) (done_for aim self.new) (room_for self.old)
            (room_for self.new) (bytes ++ piece.now) turn) };
}

impl<I: Intake> IntakeFor for I {
    ghost For = { Unit {0} };

    ghost open_for = { λ aim intake bytes. I.open_ intake bytes };

    ghost done_for = { λ aim intake bytes. I.done intake bytes };

    ghost room_for = { λ intake. I.room intake };

    fn take_for(&mut self, piece: &[u8]) -> Result<Turn, NoMemory> {
        self.take(piece)
    }
}
