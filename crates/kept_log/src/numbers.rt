//! What is named, by numbers of processes and variables.

ghost use Rattle.std.specs.Prelude.{◌≡◌, ◌&&◌, ◌==◌};
ghost use Rattle.kept_runs.specs.Chosen.{new_number};
ghost use Rattle.kept_log.specs.inside.Numbered.{assigns_to, is_on, is_open, is_kept, is_send_to};
ghost use Rattle.kept_log.specs.inside.Numbered.{is_among, is_assigned, is_whole};
ghost use Rattle.kept_log.specs.inside.Numbered.{is_receipt_from, is_named, is_kept_variable};

use event_log::{Assign, Event, Kind};
use pota_base::List;

/// A variable by its process and its number there, or a channel by its sender and its receiver.
#[derive(Clone, Copy, Debug)]
pub struct Ends {
    pub first: usize,
    pub second: usize,
}

/// The variables and channels that are named, and the processes that are named as wholes.
#[derive(Debug, Drop)]
pub struct Numbers {
    pub variables: List<Ends>,
    pub channels: List<Ends>,
    pub processes: List<usize>,
}

fn is_send_to(receiver: usize, kind: Kind) -> bool
    ensures { result ≡ is_send_to receiver kind }
{
    match kind {
        Kind::Internal => false,
        Kind::Send { to, .. } => to as usize == receiver,
        Kind::Receive { .. } => false,
    }
}

fn is_receipt_from(from: usize, kind: Kind) -> bool
    ensures { result ≡ is_receipt_from from kind }
{
    match kind {
        Kind::Internal => false,
        Kind::Send { .. } => false,
        Kind::Receive { sender, .. } => sender as usize == from,
    }
}

fn is_among(assigns: &[Assign], variable: usize) -> bool
    ensures { result ≡ is_among assigns.now variable }
{
    assigns
        .iter()
        .any(|assign| assign.variable as usize == variable)
}

fn assigns_to(event: &Event, variable: Ends) -> bool
    ensures { result ≡ assigns_to event.now variable }
{
    variable.first == event.process as usize && is_among(event.assigns.as_slice(), variable.second)
}

fn is_on(event: &Event, channel: Ends) -> bool
    ensures { result ≡ is_on event.now channel }
{
    (channel.first == event.process as usize && is_send_to(channel.second, event.kind))
        || (channel.second == event.process as usize && is_receipt_from(channel.first, event.kind))
}

fn is_variable(named: Ends, process: usize, variable: usize) -> bool
    ensures { result ≡ ((named.first == process) && (named.second == variable)) }
{
    named.first == process && named.second == variable
}

impl Numbers {
    /// Whether the event sends or receives on a named channel.
    pub fn is_open(&self, event: &Event) -> bool
        ensures { result ≡ is_open self.now event.now }
    {
        self.channels
            .as_slice()
            .iter()
            .any(|channel| is_on(event, *channel))
    }

    fn is_assigned(&self, event: &Event) -> bool
        ensures { result ≡ is_assigned self.now event.now }
    {
        self.variables
            .as_slice()
            .iter()
            .any(|variable| assigns_to(event, *variable))
    }

    fn is_whole(&self, process: usize) -> bool
        ensures { result ≡ is_whole self.now process }
    {
        self.processes
            .as_slice()
            .iter()
            .any(|whole| *whole == process)
    }

    fn is_named(&self, process: usize, variable: usize) -> bool
        ensures { result ≡ is_named self.now process variable }
    {
        self.variables
            .as_slice()
            .iter()
            .any(|named| is_variable(*named, process, variable))
    }

    /// Whether the variable of the process is kept: it is named, or its process is.
    pub fn keeps(&self, process: usize, variable: usize) -> bool
        ensures { result ≡ is_kept_variable self.now process variable }
    {
        self.is_named(process, variable) || self.is_whole(process)
    }

    /// How many variables of the process that are kept stand before this one: its number among
    /// them.
    #[tactic(auto, using(kept_runs::proofs::Chosen::number_below, kept_runs::proofs::Chosen::number_more, kept_runs::proofs::Chosen::number_stays))]
    pub fn new_number(&self, process: usize, variable: u32) -> u32
        ensures { result ≡ new_number (is_kept_variable self.now process) variable }
    {
        let mut number = 0;
        for before in 0..variable {
            if self.keeps(process, before as usize) {
                number += 1;
            }
        }
        number
    }

    /// Whether the event is kept.
    pub fn is_kept(&self, event: &Event) -> bool
        ensures { result ≡ is_kept self.now event.now }
    {
        self.is_assigned(event) || self.is_open(event) || self.is_whole(event.process as usize)
    }
}
