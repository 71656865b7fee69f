//! The messages in transit at a cut.
ghost use Rattle.std.specs.Prelude.{◌≡◌, ◌<◌, ◌≤◌, ◌++◌, [], length, map, get_or, OnOk};
ghost use Rattle.event_log.specs.States.{kind_of};
ghost use Rattle.report_lines.specs.Spelling.{CutFits};
ghost use Rattle.run_model.specs.Run.{is_send_to, is_receipt_from};
ghost use Rattle.view_text.specs.Text.{channel_row, named_channel, channels_from, channel_rows};
ghost use Rattle.view_text.specs.Transit.{sends, receipts, in_transit};

use cut_lattice::Cut;
use event_log::{Kind, States};
use pota_base::{Bytes, EventId, NoMemory, put_u64};
use rctl_grammar::Token;
use view_parts::{Sought, event_at, name_at, names};

fn is_send_to(receiver: u32, kind: Kind) -> bool
    ensures { result ≡ is_send_to receiver (kind_of kind) }
{
    match kind {
        Kind::Send { to, .. } => to == receiver,
        _ => false,
    }
}

fn is_receipt_from(other: u32, kind: Kind) -> bool
    ensures { result ≡ is_receipt_from other (kind_of kind) }
{
    match kind {
        Kind::Receive { sender, .. } => sender == other,
        _ => false,
    }
}

// How many of the first events of the sender send to the receiver.
fn sends(states: &States, sender: u32, receiver: u32, events: u32) -> u32
    requires process { sender < length states.now.events }
    requires events { events ≤ length (get_or states.now.events sender []) }
    ensures { result ≡ sends states.now sender receiver events }
{
    let (process, mut count) = (sender, 0);
    for before in 0..events {
        let position = before + 1;
        if is_send_to(
            receiver,
            event_at(states, EventId { process, position }).kind,
        ) {
            count += 1;
        }
    }
    count
}

// How many of the first events of the receiver receive from the sender.
fn receipts(states: &States, sender: u32, receiver: u32, events: u32) -> u32
    requires process { receiver < length states.now.events }
    requires events { events ≤ length (get_or states.now.events receiver []) }
    ensures { result ≡ receipts states.now sender receiver events }
{
    let (process, mut count) = (receiver, 0);
    for before in 0..events {
        let position = before + 1;
        if is_receipt_from(sender, event_at(states, EventId { process, position }).kind) {
            count += 1;
        }
    }
    count
}

// How many messages are in transit at the cut.
fn in_transit(states: &States, cut: &Cut, sender: u32, receiver: u32) -> u32
    requires sender { sender < length states.now.events }
    requires receiver { receiver < length states.now.events }
    requires cut { CutFits (map length states.now.events) cut.now }
    ensures { result ≡ in_transit states.now cut.now sender receiver }
{
    if sender == receiver {
        return 0;
    }
    let sent = sends(states, sender, receiver, cut.get(sender));
    sent.saturating_sub(receipts(states, sender, receiver, cut.get(receiver)))
}

// Appends how many messages are in transit at the cut.
fn put_channel_row(
    out: &mut Bytes,
    states: &States,
    cut: &Cut,
    sender: u32,
    receiver: u32,
) -> Result<(), NoMemory>
    requires sender { sender < length states.now.events }
    requires receiver { receiver < length states.now.events }
    requires cut { CutFits (map length states.now.events) cut.now }
    ensures { OnOk result (out.new ≡ out.old ++ channel_row states.now cut.now sender receiver) }
{
    let procs = states.header().procs.as_slice();
    out.extend_from_slice(b"       there  intransit(")?;
    out.extend_from_slice(name_at(procs, sender))?;
    out.push(b',')?;
    out.extend_from_slice(name_at(procs, receiver))?;
    out.extend_from_slice(b") = ")?;
    put_u64(out, u64::from(in_transit(states, cut, sender, receiver)))?;
    out.push(b'\n')
}

// The same of a channel that the formula names, and else nothing.
fn put_named_channel(
    out: &mut Bytes,
    states: &States,
    tokens: &[Token],
    cut: &Cut,
    sender: u32,
    receiver: u32,
) -> Result<(), NoMemory>
    requires sender { sender < length states.now.events }
    requires receiver { receiver < length states.now.events }
    requires cut { CutFits (map length states.now.events) cut.now }
    ensures { OnOk result (out.new
        ≡ out.old ++ named_channel states.now tokens.now cut.now sender receiver) }
{
    let procs = states.header().procs.as_slice();
    let sought = Sought::Channel(name_at(procs, sender), name_at(procs, receiver));
    if names(sought, tokens) {
        return put_channel_row(out, states, cut, sender, receiver);
    }
    Ok(())
}

// The same of each channel from this sender.
fn put_channels_from(
    out: &mut Bytes,
    states: &States,
    tokens: &[Token],
    cut: &Cut,
    sender: u32,
) -> Result<(), NoMemory>
    requires sender { sender < length states.now.events }
    requires cut { CutFits (map length states.now.events) cut.now }
    ensures { OnOk result (out.new
        ≡ out.old ++ channels_from states.now tokens.now cut.now sender) }
{
    for receiver in 0..states.header().procs.len() as u32 {
        put_named_channel(out, states, tokens, cut, sender, receiver)?;
    }
    Ok(())
}

/// Appends how many messages are in transit at the cut, on each channel that the formula of these
/// tokens names.
pub fn put_channel_rows(
    out: &mut Bytes,
    states: &States,
    tokens: &[Token],
    cut: &Cut,
) -> Result<(), NoMemory>
    requires { CutFits (map length states.now.events) cut.now }
    ensures { OnOk result (out.new ≡ out.old ++ channel_rows states.now tokens.now cut.now) }
{
    for sender in 0..states.header().procs.len() as u32 {
        put_channels_from(out, states, tokens, cut, sender)?;
    }
    Ok(())
}
