//! What a channel counts along each of its processes.
ghost use Rattle.std.specs.Prelude.{◌≡◌, ◌+◌, [], ◌<◌, ◌≤◌, length, get_or, IfOk};
ghost use Rattle.pota_base.specs.Limits.{most_events};
ghost use Rattle.event_log.specs.States.{kind_of};
ghost use Rattle.channel_preds.specs.Channels.{is_counted, sends_to, receipts_from};
ghost use Rattle.channel_preds.specs.Channels.{counts_of, events_at};
ghost use Rattle.channel_preds.specs.inside.Channels.{AreCounts};

use event_log::{Kind, States};
use pota_base::{EventId, List, NoMemory};
use std::alloc::Global;

/// Which events of a process are counted.
#[derive(Clone, Copy, Debug, PartialEq, Eq)]
pub enum Counted {
    SendsTo(u32),
    ReceiptsFrom(u32),
    Nothing,
}

impl Counted {
    /// The sends from one process to another. A process sends nothing to itself.
    pub fn sends(sender: u32, receiver: u32) -> Counted
        ensures { result ≡ sends_to sender receiver }
    {
        if sender == receiver {
            Counted::Nothing
        } else {
            Counted::SendsTo(receiver)
        }
    }

    /// The receipts at one process from another. A process receives nothing from itself.
    pub fn receipts(sender: u32, receiver: u32) -> Counted
        ensures { result ≡ receipts_from sender receiver }
    {
        if sender == receiver {
            Counted::Nothing
        } else {
            Counted::ReceiptsFrom(sender)
        }
    }

    /// Whether an event of this kind is counted.
    pub fn has(self, kind: Kind) -> bool
        ensures { result ≡ is_counted self kind }
    {
        match (self, kind) {
            (Counted::SendsTo(receiver), Kind::Send { to, id: _ }) => to == receiver,
            (Counted::ReceiptsFrom(from), Kind::Receive { sender, id: _ }) => sender == from,
            _ => false,
        }
    }
}

/// The count after each number of events of the process, none included.
pub fn count_along(
    alloc: Global,
    states: &States,
    process: u32,
    which: Counted,
) -> Result<List<u32>, NoMemory>
    requires { process < length states.now.events }
    ensures told { IfOk result (λ counts. counts ≡ counts_of which (events_at states.now process)) }
    ensures counts { IfOk result AreCounts }
    ensures few { IfOk result (λ counts. length counts ≤ most_events + 1) }
{
    let len = states.shape().len_of(process);
    let mut counts = Vec::with_capacity(alloc, len as usize + 1)?;
    let mut count = 0;
    counts.push(count)?;
    for before in 0..len {
        let position = before + 1;
        let event = states.event(EventId { process, position });
        if which.has(event.kind) {
            count += 1;
        }
        counts.push(count)?;
    }
    Ok(List::from_vec(counts))
}
