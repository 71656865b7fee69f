//! What a log is folded to, by names.
ghost use Rattle.std.specs.Prelude.{◌≡◌, [], OnOk};
ghost use Rattle.kept_names.specs.Words.{no_names, are_none, with_one};

use pota_base::{List, NoMemory};
use pota_names::Name;
use std::alloc::Global;

/// A variable by the name of its process and its own, or a channel by the names of its sender and
/// its receiver.
#[derive(Debug, Drop)]
pub struct Pair {
    pub first: Name,
    pub second: Name,
}

/// What one word names.
#[derive(Debug, Drop)]
pub enum Named {
    Variable(Pair),
    Channel(Pair),
    /// A process as a whole.
    Process(Name),
}

/// The variables and channels that are named, and the processes that are named as wholes.
#[derive(Debug, Drop)]
pub struct Names {
    pub variables: List<Pair>,
    pub channels: List<Pair>,
    pub processes: List<Name>,
}

impl Names {
    /// No names. It takes no memory.
    pub fn new(alloc: Global) -> Names
        ensures { result ≡ no_names }
    {
        Names {
            variables: List::new(alloc),
            channels: List::new(alloc),
            processes: List::new(alloc),
        }
    }

    /// Whether nothing is named.
    pub fn is_empty(&self) -> bool
        ensures { result ≡ are_none self.now }
    {
        self.variables.is_empty() && self.channels.is_empty() && self.processes.is_empty()
    }

    /// One name more, behind those before.
    pub fn add(&mut self, named: Named) -> Result<(), NoMemory>
        ensures { OnOk result (self.new ≡ with_one self.old named) }
    {
        match named {
            Named::Variable(variable) => self.variables.push(variable),
            Named::Channel(channel) => self.channels.push(channel),
            Named::Process(process) => self.processes.push(process),
        }
    }
}
