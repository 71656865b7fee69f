//! A process of the run that is made.
ghost use Rattle.std.specs.Prelude.{◌≡◌, ◌+◌, ◌^◌, ◌<◌, IfOk, length, replicate, [], set};
ghost use Rattle.run_model.specs.Cut.{count, max_cut, with_next};
ghost use Rattle.trace_gen.specs.Making.{advanced, received};

use crate::queue::{Queue, Sent};
use pota_base::{List, NoMemory};
use std::alloc::Global;

/// What the next event of a process depends on.
#[derive(Debug, Drop)]
pub struct Process {
    /// The vector clock of its last event.
    pub clock: List<u32>,
    /// How many messages it has received.
    pub seen: u32,
    pub waiting: Queue,
}

// The clock becomes the maximum with another one.
fn join(clock: &mut List<u32>, other: &List<u32>)
    requires { length other.now ≡ length clock.old }
    ensures { clock.new ≡ max_cut other.now clock.old }
{
    for i in 0..other.len() {
        let count = (*other.get(i)).max(*clock.get(i));
        let _ = clock.replace(i, count);
    }
}

impl Process {
    /// A process of so many before its first event.
    pub fn at_rest(alloc: Global, procs: usize) -> Result<Process, NoMemory>
        ensures { IfOk result (λ p.
            p ≡ record { clock = replicate procs 0; seen = 0; waiting = [] }) }
    {
        Ok(Process {
            clock: List::from_vec(vec![in alloc; 0u32; procs]?),
            seen: 0,
            waiting: Queue::new(alloc),
        })
    }

    /// Counts one event more of this process, which is process `index`.
    pub fn advance(&mut self, index: usize)
        requires there { index < length self.old.clock }
        requires room { count self.old.clock index + 1 < 2 ^ 32 }
        ensures { self.new ≡ advanced self.old index }
    {
        let count = *self.clock.get(index);
        let _ = self.clock.replace(index, count + 1);
    }

    /// Counts the receipt of a message, and all that happened before its send.
    pub fn receive(&mut self, message: &Sent)
        requires clock { length message.now.clock ≡ length self.old.clock }
        requires room { self.old.seen + 1 < 2 ^ 32 }
        ensures { self.new ≡ received self.old message.now }
    {
        join(&mut self.clock, &message.clock);
        self.seen += 1;
    }
}
