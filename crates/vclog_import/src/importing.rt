//! A text, imported.

ghost use Rattle.std.specs.Prelude.{◌≡◌, ◌∷◌, [], true, None, Some, IfOk};
ghost use Rattle.std.specs.List.{AllByRecursion};
ghost use Rattle.pota_names.specs.Names.{is_name};
ghost use Rattle.vclog_import.specs.Hosts.{name_of};
ghost use Rattle.vclog_import.specs.inside.Hosts.{IsNamed};
ghost use Rattle.vclog_import.specs.Faults.{fault_of, IfFault};
ghost use Rattle.vclog_import.specs.Imported.{counting, header_of, imported};
ghost use Rattle.vclog_import.specs.inside.Scans.{hosts_in};

use crate::events::{events_of, first_bad_clock};
use crate::names::name_of;
use crate::scanning::Scan;
use event_log::{Binding, Header, Log, Name};
use fault_kinds::ImportFault;
use pota_base::{List, NoMemory, Refused};
use std::alloc::Global;

// The name of the process of a host.
fn process_name(alloc: Global, host: &[u8]) -> Result<Name, NoMemory>
    requires { is_name (name_of host.now) ≡ true }
    ensures { IfOk result (λ name. name ≡ name_of host.now) }
{
    let bytes = name_of(alloc, host)?;
    let name = Name::new(alloc, bytes.as_slice())?;
    Ok(name.unwrap())
}

// The one variable of a process.
fn counting(alloc: Global) -> Result<List<Binding>, NoMemory>
    ensures { IfOk result (λ bindings. bindings ≡ counting ∷ []) }
{
    let name = Name::new(alloc, b"n")?;
    let mut bindings = List::with_capacity(alloc, 1)?;
    bindings.push(Binding {
        name: name.unwrap(),
        value: 0,
    })?;
    Ok(bindings)
}

// The header with these hosts as its processes.
fn header_of(alloc: Global, hosts: &[&[u8]]) -> Result<Header, NoMemory>
    requires { AllByRecursion IsNamed (hosts_in hosts.now) }
    ensures { IfOk result (λ h. h ≡ header_of (hosts_in hosts.now)) }
{
    let mut header = Header {
        version: 1,
        procs: List::new(alloc),
        vars: List::new(alloc),
        var_lines: List::new(alloc),
    };
    for host in hosts {
        header.procs.push(process_name(alloc, host)?)?;
        header.vars.push(counting(alloc)?)?;
        header.var_lines.push(0)?;
    }
    Ok(header)
}

/// The log that a text of two-line records is: an internal event for each record, on its host line,
/// that counts the records of its host in the variable `n`. The processes are the hosts in the
/// order of their bytes. There are no lines in the header.
///
/// # Errors
///
/// The first fault by line, if a line has one; else that of the text's end; else the first one of
/// its hosts.
pub fn import(alloc: Global, text: &[u8]) -> Result<Log, Refused<ImportFault>>
    ensures ok { IfOk result (λ log. log ≡ imported text.now) }
    ensures faultless { IfOk result (λ _log. fault_of text.now ≡ None) }
    ensures fault { IfFault result (λ f. fault_of text.now ≡ Some f) }
{
    let scan = Scan::of(alloc, text)?;
    let clash = scan.clash;
    let fault = scan.fault;
    let lines = scan.lines.as_slice();
    let hosts = scan.hosts.as_slice();
    if let Some(fault) = fault {
        let bad = first_bad_clock(alloc, lines)?;
        return Err(Refused::Fault(bad.unwrap_or(fault)));
    }
    let events = events_of(alloc, lines, hosts, clash)?;
    let header = header_of(alloc, hosts)?;
    let mut batches = List::with_capacity(alloc, 1)?;
    batches.push(events)?;
    Ok(Log { header, batches })
}
