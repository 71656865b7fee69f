//! The events of the records, with their clocks.

ghost use Rattle.std.specs.Prelude.{◌≡◌, ◌≤◌, ◌<◌, ◌++◌, ◌∷◌, [], None, Some, List as ListOf, true};
ghost use Rattle.std.specs.Prelude.{length, map, is_some, IfOk, OnOk};
ghost use Rattle.std.specs.List.{AllByRecursion};
ghost use Rattle.pota_base.specs.Limits.{most_events, most_processes};
ghost use Rattle.log_lines.specs.Reading.{choose};
ghost use Rattle.log_lines.specs.Names.{place_of, are_distinct};
ghost use Rattle.fault_kinds.specs.declared.import.ImportCode.TheVariants.{UnknownHost};
ghost use Rattle.vclog_import.specs.Lines.{Record};
ghost use Rattle.vclog_import.specs.Hosts.{hosts_of};
ghost use Rattle.vclog_import.specs.Clock.{clock_of, count_of};
ghost use Rattle.vclog_import.specs.Faults.{at_line, earlier, IfFault};
ghost use Rattle.vclog_import.specs.Imported.{events_from};
ghost use Rattle.vclog_import.specs.inside.Reading.{record_of, records};
ghost use Rattle.vclog_import.specs.inside.Scans.{hosts_in, bad_clock, first_bad_clock, IsFine};
ghost use Rattle.vclog_import.specs.inside.Scans.{fault_with};

use crate::clock::clock_in;
use crate::host_lines::HostLine;
use crate::rows::counts_of;
use crate::scanning::is_bad;
use event_log::{Assign, Event, Kind};
use fault_kinds::{ImportCode, ImportFault};
use log_lines::place_of;
use pota_base::{List, MOST_PROCESSES, NoMemory, Refused};
use std::alloc::Global;

// Whether the host line is fine and its clock isn't.
fn has_bad_clock(alloc: Global, line: &HostLine<'_>) -> Result<bool, NoMemory>
    ensures { IfOk result (λ bad. bad ≡ is_some (bad_clock (record_of line.now))) }
{
    if is_bad(line) {
        return Ok(false);
    }
    let clock = clock_in(alloc, line.clock)?;
    Ok(clock.is_none())
}

/// The first bad clock of the host lines, if there is one. Bad host lines are passed over.
pub fn first_bad_clock(
    alloc: Global,
    lines: &[HostLine<'_>],
) -> Result<Option<ImportFault>, NoMemory>
    ensures { IfOk result (λ fault. fault ≡ first_bad_clock (records lines.now)) }
{
    for line in lines {
        if has_bad_clock(alloc, line)? {
            return Ok(Some(ImportFault {
                code: ImportCode::BadClock,
                line: line.line,
            }));
        }
    }
    Ok(None)
}

// Of two faults the one on the lower line.
fn earlier(first: Option<ImportFault>, second: ImportFault) -> ImportFault
    ensures { earlier first (Some second) ≡ Some result }
{
    match first {
        Some(first) => {
            if first.line <= second.line {
                first
            } else {
                second
            }
        }
        None => second,
    }
}

// The first fault of host lines whose first one has a clock that names an unknown host: the first
// bad clock, or else that one or the clash, whichever comes first.
fn unknown_host(
    alloc: Global,
    line: &HostLine<'_>,
    behind: &[HostLine<'_>],
    clash: Option<ImportFault>,
) -> Result<ImportFault, NoMemory>
    ensures { IfOk result (λ fault. choose (first_bad_clock (records behind.now)) (λ f. Some f)
        (earlier clash (Some (at_line (record_of line.now) UnknownHost))) ≡ Some fault) }
{
    let unknown = ImportFault {
        code: ImportCode::UnknownHost,
        line: line.line,
    };
    let bad = first_bad_clock(alloc, behind)?;
    Ok(bad.unwrap_or(earlier(clash, unknown)))
}

/// The events so far, and how many of them each host has.
#[derive(Debug, Drop)]
pub struct Events<'a> {
    pub hosts: &'a [&'a [u8]],
    pub counts: [u32; MOST_PROCESSES],
    pub events: List<Event>,
}

impl<'a> Events<'a> {
    ghost use Rattle.vclog_import.specs.inside.Made.{HasMade};

    // No event.
    fn new(alloc: Global, hosts: &'a [&'a [u8]]) -> Events<'a>
        requires { length hosts.now ≤ most_processes }
        ensures made { HasMade result [] }
        ensures hosts { hosts_in result.hosts.now ≡ hosts_in hosts.now }
    {
        Events {
            hosts,
            counts: [0; MOST_PROCESSES],
            events: List::new(alloc),
        }
    }

    // The event of one record more, with this clock.
    fn add(&mut self, alloc: Global, line: &HostLine<'_>, clock: Vec<u32>) -> Result<(), NoMemory>
        requires made { (before : ListOf Record) × HasMade self.old before
            × (length before < most_events) }
        requires distinct { are_distinct (hosts_in self.old.hosts.now) ≡ true }
        requires host { is_some (place_of (hosts_in self.old.hosts.now) line.now.host.now) ≡ true }
        requires clock { clock.items
            ≡ map (count_of (clock_of (record_of line.now))) (hosts_in self.old.hosts.now) }
        ensures made { OnOk result ((before : ListOf Record) → HasMade self.old before
            → HasMade self.new (before ++ record_of line.now ∷ [])) }
        ensures hosts { self.new.hosts ≡ self.old.hosts }
    {
        let place = place_of(self.hosts, line.host).unwrap();
        let count = self.counts[place] + 1;
        self.counts[place] = count;
        let mut assigns = List::with_capacity(alloc, 1)?;
        assigns.push(Assign {
            variable: 0,
            value: i64::from(count),
        })?;
        self.events.push(Event {
            process: place as u32,
            line: line.line,
            clock: List::from_vec(clock),
            kind: Kind::Internal,
            assigns,
        })?;
        Ok(())
    }
}

/// The events of the host lines, none of which is bad, or the first fault of their clocks and
/// hosts. `clash` is the first fault of their names.
pub fn events_of(
    alloc: Global,
    lines: &[HostLine<'_>],
    hosts: &[&[u8]],
    clash: Option<ImportFault>,
) -> Result<List<Event>, Refused<ImportFault>>
    requires lines { AllByRecursion IsFine (records lines.now) }
    requires few { length lines.now ≤ most_events }
    requires hosts { hosts_in hosts.now ≡ hosts_of (records lines.now) }
    requires few_hosts { length hosts.now ≤ most_processes }
    ensures ok { IfOk result (λ events. events
        ≡ events_from (hosts_of (records lines.now)) [] (records lines.now)) }
    ensures faultless { IfOk result (λ _e. fault_with clash (records lines.now) ≡ None) }
    ensures fault { IfFault result (λ f. fault_with clash (records lines.now) ≡ Some f) }
{
    let mut made = Events::new(alloc, hosts);
    for i in 0..lines.len() {
        let line = &lines[i];
        let Some(clock) = clock_in(alloc, line.clock)? else {
            return Err(Refused::Fault(ImportFault {
                code: ImportCode::BadClock,
                line: line.line,
            }));
        };
        let told = counts_of(alloc, hosts, &clock)?;
        if !told.all_known {
            let fault = unknown_host(alloc, line, &lines[i + 1..], clash)?;
            return Err(Refused::Fault(fault));
        }
        made.add(alloc, line, told.counts)?;
    }
    match clash {
        None => Ok(made.events),
        Some(fault) => Err(Refused::Fault(fault)),
    }
}
