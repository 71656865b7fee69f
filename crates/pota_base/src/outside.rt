//! The outside: where bytes come from and where they go.
//!
//! What a source has left and what a sink holds may be untold, as it is for standard input. Then
//! the clauses on bytes say nothing, and those on the counts of faults stand.
ghost use Rattle.std.specs.Prelude.{◌≡◌, ℕ, ◌<◌, ◌≤◌, List, Option, IfOk, OnOk, OnErr};
ghost use Rattle.std.specs.Io.{ReadsAtMost};
ghost use Rattle.std.specs.Io.KnownBytes.{Appends, ReadConsumes};
ghost use Rattle.pota_base.specs.Outside.{HasCause, WriteHolds, AppendsPrefix};

use crate::Failed;

/// Bytes that come piece by piece.
///
/// `left` is what is still to come, where that is told; `faults` counts the failures so far. A
/// count rises only where a call fails, and never falls, and at 2^64 - 1 it stays: from there on
/// every failure is taken to have its cause.
pub trait Source {
    ghost left: { Self → Option (List ℕ) };

    ghost faults: { Self → ℕ };

    /// Reads some bytes into the front of `into`, and says how many. 0 bytes into room for some
    /// mean the end of the input.
    ///
    /// # Errors
    ///
    /// `Failed` where the reading failed; nothing was taken then, and a later call may succeed.
    fn read(&mut self, into: &mut [u8]) -> Result<usize, Failed>
        ensures bound { ReadsAtMost result into.new }
        ensures bytes { ReadConsumes (left self.old) (left self.new) result into.new }
        ensures calm { OnOk result (faults self.new ≡ faults self.old) }
        ensures cause { HasCause (faults self.old) (faults self.new) result };
}

/// A place where bytes go piece by piece.
///
/// `held` is what it has taken so far, where that is told; `faults` counts its failures, as a
/// source's does.
pub trait Sink {
    ghost held: { Self → Option (List ℕ) };

    ghost faults: { Self → ℕ };

    /// Takes some bytes from the front of `piece`, and says how many. To take none of some counts
    /// as a fault.
    ///
    /// # Errors
    ///
    /// `Failed` where the writing failed; nothing was taken then.
    fn write(&mut self, piece: &[u8]) -> Result<usize, Failed>
        ensures bytes { WriteHolds (held self.old) (held self.new) (faults self.old)
            (faults self.new) result piece.now }
        ensures calm { IfOk result (λ n. 0 < n → faults self.new ≡ faults self.old) }
        ensures cause { HasCause (faults self.old) (faults self.new) result };
}

/// Writes the whole text by as many writes as it takes. It is `Ok` only where none of them failed.
///
/// # Errors
///
/// `Failed` at the first write that fails or takes nothing.
pub fn write_all<S: Sink>(out: &mut S, text: &[u8]) -> Result<(), Failed>
    ensures whole { OnOk result (Appends (S.held out.old) (S.held out.new) text.now) }
    ensures part { OnErr result (AppendsPrefix (S.held out.old) (S.held out.new) text.now) }
    ensures calm { OnOk result (S.faults out.new ≡ S.faults out.old) }
    ensures cause { HasCause (S.faults out.old) (S.faults out.new) result }
{
    let mut rest = text;
    while !rest.is_empty() {
        match out.write(rest) {
            Ok(0) => return Err(Failed),
            Ok(count) => rest = &rest[count..],
            Err(failed) => return Err(failed),
        }
    }
    Ok(())
}
