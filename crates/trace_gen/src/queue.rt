//! The messages that wait for a process.
ghost use Rattle.std.specs.Prelude.{◌≡◌, [], ◌∷◌, ◌++◌, MatchOption, OnOk};

use pota_base::{List, NoMemory};
use std::alloc::Global;
use std::collections::VecDeque;
use std::marker::Model;

/// A message on its way.
#[derive(Debug, Drop)]
pub struct Sent {
    pub sender: u32,
    pub id: u64,
    /// The vector clock of its send.
    pub clock: List<u32>,
}

/// The messages that were sent to a process and not received yet, the oldest first.
#[derive(Debug, Drop)]
pub struct Queue {
    sent: VecDeque<Sent>,
}

impl Model for Queue {
    ghost use Rattle.std.specs.Prelude.{List as ListOf};
    ghost use Rattle.trace_gen.specs.declared.queue.Sent.{Sent};

    ghost Value = { ListOf Sent };

    ghost view = { λ queue. queue.sent.items };
}

impl Queue {
    pub fn new(alloc: Global) -> Queue
        ensures { result ≡ [] }
    {
        Queue {
            sent: VecDeque::new(alloc),
        }
    }

    /// Puts a message behind those that wait.
    pub fn push(&mut self, message: Sent) -> Result<(), NoMemory>
        ensures { OnOk result (self.new ≡ self.old ++ message ∷ []) }
    {
        self.sent.push_back(message)?;
        Ok(())
    }

    /// Takes the oldest message.
    pub fn pop(&mut self) -> Option<Sent>
        ensures { MatchOption result ((self.old ≡ []) × (self.new ≡ []))
            (λ m. self.old ≡ m ∷ self.new) }
    {
        self.sent.pop_front()
    }
}
