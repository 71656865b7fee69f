//! What can be read, as a source.
ghost use Rattle.std.specs.Prelude.{◌≡◌, OnOk, OnErr};
ghost use Rattle.std.specs.Io.{ReadsAtMost};
ghost use Rattle.std.specs.Io.KnownBytes.{ReadConsumes};
ghost use Rattle.pota_base.specs.Outside.{HasCause};
ghost use Rattle.std_streams.specs.Counts.{one_more};

use pota_base::{Failed, Source};
use std::io::Read;

/// A reader, with a count of the reads that failed. An interrupted read counts too.
#[derive(Drop)]
pub struct Reading<R: Read> {
    inner: R,
    faults: u64,
}

impl<R: Read> Reading<R> {
    /// The reader before its first read.
    pub fn new(inner: R) -> Reading<R>
        ensures reader { result.inner ≡ inner }
        ensures count { result.faults ≡ 0 }
    {
        Reading { inner, faults: 0 }
    }
}

impl<R: Read> Source for Reading<R> {
    ghost left = { λ s. R.remaining s.inner };

    ghost faults = { λ s. s.faults };

    fn read(&mut self, into: &mut [u8]) -> Result<usize, Failed>
        ensures bound { ReadsAtMost result into.new }
        ensures bytes { ReadConsumes (R.remaining self.old.inner) (R.remaining self.new.inner)
            result into.new }
        ensures cause { HasCause self.old.faults self.new.faults result }
        ensures calm { OnOk result (self.new.faults ≡ self.old.faults) }
        ensures error { OnErr result (self.new.faults ≡ one_more self.old.faults) }
    {
        match self.inner.read(into) {
            Ok(count) => Ok(count),
            Err(_) => {
                self.faults = self.faults.saturating_add(1);
                Err(Failed)
            }
        }
    }
}
