//! What can be written to, as a sink.
ghost use Rattle.std.specs.Prelude.{◌≡◌, ◌<◌, ◌⊎◌, length, IfOk, OnErr};
ghost use Rattle.pota_base.specs.Outside.{HasCause, WriteHolds};
ghost use Rattle.std_streams.specs.Counts.{one_more};

use pota_base::{Failed, Sink};
use std::io::Write;

/// A writer, with a count of the writes that failed, or took none of some bytes.
#[derive(Drop)]
pub struct Writing<W: Write> {
    inner: W,
    faults: u64,
}

impl<W: Write> Writing<W> {
    /// The writer before its first write.
    pub fn new(inner: W) -> Writing<W>
        ensures writer { result.inner ≡ inner }
        ensures count { result.faults ≡ 0 }
    {
        Writing { inner, faults: 0 }
    }
}

impl<W: Write> Sink for Writing<W> {
    ghost held = { λ s. W.contents s.inner };

    ghost faults = { λ s. s.faults };

    fn write(&mut self, piece: &[u8]) -> Result<usize, Failed>
        ensures bytes { WriteHolds (W.contents self.old.inner) (W.contents self.new.inner)
            self.old.faults self.new.faults result piece.now }
        ensures calm { IfOk result (λ n. 0 < n → self.new.faults ≡ self.old.faults) }
        ensures cause { HasCause self.old.faults self.new.faults result }
        ensures same { IfOk result (λ n. ((0 < n) ⊎ (length piece.now ≡ 0))
            → self.new.faults ≡ self.old.faults) }
        ensures nothing { IfOk result (λ n. n ≡ 0 → 0 < length piece.now
            → self.new.faults ≡ one_more self.old.faults) }
        ensures error { OnErr result (self.new.faults ≡ one_more self.old.faults) }
    {
        match self.inner.write(piece) {
            Ok(count) => {
                if count == 0 && !piece.is_empty() {
                    self.faults = self.faults.saturating_add(1);
                }
                Ok(count)
            }
            Err(_) => {
                self.faults = self.faults.saturating_add(1);
                Err(Failed)
            }
        }
    }
}
