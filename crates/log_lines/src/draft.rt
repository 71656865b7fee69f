//! What a line says, with each name as the slice of the line that spells it.

ghost use Rattle.std.specs.Prelude.{◌≡◌};
ghost use Rattle.log_lines.specs.declared.draft.LineError.TheVariants.{NoMemory};

use crate::words::Named;
use smallvec::SmallVec;
use std::alloc::{AllocError, AllocFailed};

/// Why a line was not read.
#[derive(Clone, Copy, Debug, PartialEq, Eq)]
pub enum LineError {
    /// No line of this kind is spelled so.
    Malformed,
    NoMemory,
}

impl From<AllocError> for LineError {
    ghost from_gives = { λ _ e. e ≡ NoMemory };

    fn from(_error: AllocError) -> LineError {
        LineError::NoMemory
    }
}

impl<T: Drop> From<AllocFailed<T>> for LineError {
    ghost from_gives = { λ _ e. e ≡ NoMemory };

    fn from(_error: AllocFailed<T>) -> LineError {
        LineError::NoMemory
    }
}

impl From<pota_base::NoMemory> for LineError {
    ghost from_gives = { λ _ e. e ≡ NoMemory };

    fn from(_error: pota_base::NoMemory) -> LineError {
        LineError::NoMemory
    }
}

/// `NAME=INT`: a variable and a value for it.
#[derive(Clone, Copy, Debug, Default)]
pub struct Setting<'a> {
    pub name: &'a [u8],
    pub value: i64,
}

/// Settings in their order. Up to two take no memory of their own.
pub type Settings<'a> = SmallVec<Setting<'a>, 2>;

/// What an event does beside its assignments.
#[derive(Clone, Copy, Debug)]
pub enum ActionDraft<'a> {
    Internal,
    Send { to: &'a [u8], id: u64 },
    Receive { sender: &'a [u8], id: u64 },
}

/// `ev NAME CLOCK KIND NAME=INT ..`
#[derive(Debug, Drop)]
pub struct EventDraft<'a> {
    pub actor: &'a [u8],
    /// The place of the actor among the processes, where it is one of them.
    pub process: Option<usize>,
    pub clock: Vec<u32>,
    pub action: ActionDraft<'a>,
    pub settings: Settings<'a>,
}

/// `vars NAME NAME=INT ..`
#[derive(Debug, Drop)]
pub struct VarsDraft<'a> {
    pub process: &'a [u8],
    pub settings: Settings<'a>,
}

impl Named for Setting<'_> {
    ghost name = { λ s. s.name.now };

    fn name(&self) -> &[u8] {
        self.name
    }
}
