ghost use Rattle.pota_base.specs.declared.fault.Refused.TheVariants.{Fault};
ghost use Rattle.pota_base.specs.declared.fault.Refused.TheVariants.{NoMemory as OutOfMemory};
ghost use Rattle.std.specs.Prelude.{◌≡◌};

use std::alloc::{AllocError, AllocFailed};
use std::error::Error;
use std::fmt;

/// There was no memory for a value. What the call has consumed is dropped.
#[derive(Clone, Copy, Debug, PartialEq, Eq)]
pub struct NoMemory;

impl fmt::Display for NoMemory {
    fn fmt<W: fmt::Write>(&self, f: &mut fmt::Formatter<W>) -> fmt::Result {
        write!(f, "out of memory")
    }
}

impl Error for NoMemory {}

impl From<AllocError> for NoMemory {
    fn from(_error: AllocError) -> NoMemory {
        NoMemory
    }
}

impl<T: Drop> From<AllocFailed<T>> for NoMemory {
    fn from(_error: AllocFailed<T>) -> NoMemory {
        NoMemory
    }
}

/// A read or a write of the outside world failed.
#[derive(Clone, Copy, Debug, PartialEq, Eq)]
pub struct Failed;

impl fmt::Display for Failed {
    fn fmt<W: fmt::Write>(&self, f: &mut fmt::Formatter<W>) -> fmt::Result {
        write!(f, "reading or writing failed")
    }
}

impl Error for Failed {}

/// Why a call that judges its input gave no value: a fault of the input, or no memory.
#[derive(Debug, Drop)]
pub enum Refused<F> {
    Fault(F),
    NoMemory,
}

impl<F> From<NoMemory> for Refused<F> {
    ghost from_gives = { λ _ refused. refused ≡ OutOfMemory };

    fn from(_error: NoMemory) -> Refused<F> {
        Refused::NoMemory
    }
}

impl<F> From<AllocError> for Refused<F> {
    ghost from_gives = { λ _ refused. refused ≡ OutOfMemory };

    fn from(_error: AllocError) -> Refused<F> {
        Refused::NoMemory
    }
}

impl<F, T: Drop> From<AllocFailed<T>> for Refused<F> {
    ghost from_gives = { λ _ refused. refused ≡ OutOfMemory };

    fn from(_error: AllocFailed<T>) -> Refused<F> {
        Refused::NoMemory
    }
}
