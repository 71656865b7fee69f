ghost use Rattle.std.specs.Prelude.{◌≡◌, ℕ, ◌+◌, ◌^◌, ◌<◌, ◌≤◌, ◌↔◌, List as ListOf};
ghost use Rattle.std.specs.Prelude.{[], ◌∷◌, length, map, All, IfOk};
ghost use Rattle.pull_system.specs.System.{IsPull};
ghost use Rattle.pull_system.specs.Pulls.{ClosedUnder};
ghost use Rattle.channel_preds.specs.Channels.{channel_of, FitsShape, IsWithinChannel};
ghost use Rattle.channel_preds.specs.Channels.{sent_at, received_at, at_most_pull, at_least_pull};

use crate::counted::{Counted, count_along};
use crate::positions::first_positions;
use event_log::States;
use pota_base::{List, NoMemory};
use pull_system::Pull;
use std::alloc::Global;
use std::marker::Model;

/// The messages from one process to another, counted along both.
#[derive(Debug, Drop)]
pub struct Channel {
    sender: u32,
    receiver: u32,
    /// The sends after each number of events of the sender.
    sent: List<u32>,
    /// The receipts after each number of events of the receiver.
    received: List<u32>,
}

impl Model for Channel {
    ghost use Rattle.channel_preds.specs.Channels.{ChannelView};
    ghost use Rattle.channel_preds.specs.inside.Channels.{IsChannel};

    ghost Value = { ChannelView };

    ghost view = { λ c. record {
      sender = c.sender;
      receiver = c.receiver;
      sent = c.sent;
      received = c.received;
    } };

    ghost invariant = { λ c. IsChannel record {
      sender = c.sender;
      receiver = c.receiver;
      sent = c.sent;
      received = c.received;
    } };
}

/// The channel from one process to another in the run so far. A process sends nothing to itself.
///
/// It is one pass over the events of each of the two.
pub fn counts(
    alloc: Global,
    states: &States,
    sender: u32,
    receiver: u32,
) -> Result<Channel, NoMemory>
    requires sender { sender < length states.now.events }
    requires receiver { receiver < length states.now.events }
    ensures channel { IfOk result (λ channel. channel ≡ channel_of states.now sender receiver) }
    ensures shape { IfOk result (FitsShape (map length states.now.events)) }
{
    let sends = Counted::sends(sender, receiver);
    let receipts = Counted::receipts(sender, receiver);
    let sent = count_along(alloc, states, sender, sends)?;
    let received = count_along(alloc, states, receiver, receipts)?;
    Ok(Channel {
        sender,
        receiver,
        sent,
        received,
    })
}

/// That at most `k` messages are under way, as one pull from the sender to the receiver.
///
/// Its entry at a position of the sender is the first one of the receiver at which the receipts,
/// with `k`, are no fewer than the sends, or one past the last where there is none. It is one pass
/// over both processes. (Bounds on channels are regular predicates: Garg and Mittal.)
pub fn at_most(alloc: Global, channel: &Channel, k: u64) -> Result<List<Pull>, NoMemory>
    requires { k ≤ 2 ^ 63 }
    ensures pulls { IfOk result (λ pulls. pulls ≡ at_most_pull channel.now k ∷ []) }
    ensures fit { (lens : ListOf ℕ) → FitsShape lens channel.now → IfOk result (All (IsPull lens)) }
    ensures closed { (v : ListOf ℕ) → IsWithinChannel channel.now v → IfOk result (λ pulls.
        ClosedUnder pulls v ↔ (sent_at channel.now v ≤ received_at channel.now v + k)) }
{
    let table = first_positions(
        alloc,
        channel.sent.as_slice(),
        0,
        channel.received.as_slice(),
        k,
    )?;
    let pull = Pull {
        src: channel.sender,
        dst: channel.receiver,
        table,
    };
    only(alloc, pull)
}

/// That at least `k` messages are under way, as one pull from the receiver to the sender.
///
/// Its entry at a position of the receiver is the first one of the sender at which the sends are no
/// fewer than the receipts, with `k`, or one past the last where there is none.
pub fn at_least(alloc: Global, channel: &Channel, k: u64) -> Result<List<Pull>, NoMemory>
    requires { k ≤ 2 ^ 63 }
    ensures pulls { IfOk result (λ pulls. pulls ≡ at_least_pull channel.now k ∷ []) }
    ensures fit { (lens : ListOf ℕ) → FitsShape lens channel.now → IfOk result (All (IsPull lens)) }
    ensures closed { (v : ListOf ℕ) → IsWithinChannel channel.now v → IfOk result (λ pulls.
        ClosedUnder pulls v ↔ (received_at channel.now v + k ≤ sent_at channel.now v)) }
{
    let table = first_positions(
        alloc,
        channel.received.as_slice(),
        k,
        channel.sent.as_slice(),
        0,
    )?;
    let pull = Pull {
        src: channel.receiver,
        dst: channel.sender,
        table,
    };
    only(alloc, pull)
}

/// The list of this pull alone.
fn only(alloc: Global, pull: Pull) -> Result<List<Pull>, NoMemory>
    ensures { IfOk result (λ pulls. pulls ≡ pull ∷ []) }
{
    let mut pulls = List::new(alloc);
    pulls.push(pull)?;
    Ok(pulls)
}
