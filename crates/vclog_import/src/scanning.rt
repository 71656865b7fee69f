//! What a text tells without its clocks.

ghost use Rattle.std.specs.Prelude.{◌≡◌, ◌++◌, ◌∷◌, [], ◌||◌, not, None, Some, IfOk, OnOk};
ghost use Rattle.std.specs.Prelude.{if◌then◌else◌};
ghost use Rattle.fault_kinds.specs.declared.import.ImportCode.TheVariants.{HostClash};
ghost use Rattle.vclog_import.specs.Faults.{is_bad, ended_at};
ghost use Rattle.vclog_import.specs.inside.Reading.{record_of};
ghost use Rattle.vclog_import.specs.inside.Scans.{plain_fault, hosts_in};

use crate::host_lines::{HostLine, HostLines};
use crate::hosts::put_host;
use crate::names::{clashes, name_len};
use fault_kinds::{ImportCode, ImportFault};
use pota_base::{MOST_EVENTS, MOST_PROCESSES, NoMemory};
use pota_names::LONGEST_NAME;
use std::alloc::Global;

/// The host lines up to the first fault, their hosts, and the faults that need no clock.
#[derive(Debug, Drop)]
pub struct Scan<'a> {
    pub lines: Vec<HostLine<'a>>,
    /// In the order of their bytes, each once.
    pub hosts: Vec<&'a [u8]>,
    /// Where the first host stands that has the name of another one.
    pub clash: Option<ImportFault>,
    /// The first other fault.
    pub fault: Option<ImportFault>,
}

/// Whether the host line has no host or one of too long a name.
pub fn is_bad(line: &HostLine<'_>) -> bool
    ensures { result ≡ is_bad (record_of line.now) }
{
    line.host.is_empty() || name_len(line.host) > LONGEST_NAME
}

// The fault of the end of a text that was read, and that has records or none.
fn end_fault(read: &HostLines<'_>, has_none: bool) -> Option<ImportFault>
    ensures { result
        ≡ ended_at read.now.line (not read.now.unfinished) (not read.now.is_due || has_none) }
{
    let line = read.line;
    if !read.unfinished {
        let code = ImportCode::TooLong;
        Some(ImportFault { code, line })
    } else if !read.is_due || has_none {
        let code = ImportCode::Truncated;
        Some(ImportFault { code, line })
    } else {
        None
    }
}

impl<'a> Scan<'a> {
    ghost use Rattle.std.specs.Option.{option_map};
    ghost use Rattle.std.specs.List.{list_any};
    ghost use Rattle.vclog_import.specs.Hosts.{do_clash};
    ghost use Rattle.vclog_import.specs.Faults.{at_line};
    ghost use Rattle.vclog_import.specs.inside.Reading.{records};
    ghost use Rattle.vclog_import.specs.inside.Scans.{HasScanned, IsScan};

    // No line.
    fn new(alloc: Global) -> Scan<'a>
        ensures scanned { HasScanned result }
        ensures lines { records result.lines.items ≡ [] }
    {
        Scan {
            lines: Vec::new(alloc),
            hosts: Vec::new(alloc),
            clash: None,
            fault: None,
        }
    }

    // The fault of a line with a new host, where another host has its name.
    fn clash_at(&self, alloc: Global, line: HostLine<'a>) -> Result<Option<ImportFault>, NoMemory>
        ensures { IfOk result (λ fault. fault
            ≡ (if list_any (λ h. do_clash h line.entry.host.now) (hosts_in self.now.hosts.items)
            then Some (at_line (record_of line.entry) HostClash) else None)) }
    {
        if clashes(alloc, self.hosts.as_slice(), line.host)? {
            Ok(Some(ImportFault {
                code: ImportCode::HostClash,
                line: line.line,
            }))
        } else {
            Ok(None)
        }
    }

    // One line more, and its fault.
    fn add(&mut self, alloc: Global, line: HostLine<'a>) -> Result<Option<ImportCode>, NoMemory>
        requires { HasScanned self.old }
        ensures lines { OnOk result (records self.new.lines.items
            ≡ records self.old.lines.items ++ record_of line.entry ∷ []) }
        ensures fault { IfOk result (λ code. code
            ≡ plain_fault (records self.old.lines.items) (record_of line.entry)) }
        ensures fine { IfOk result (λ code. code ≡ None → HasScanned self.new) }
    {
        let count = self.lines.len();
        self.lines.push(line)?;
        if is_bad(&line) {
            return Ok(Some(ImportCode::BadHostLine));
        }
        let is_new = put_host(&mut self.hosts, line.host)?;
        if self.hosts.len() > MOST_PROCESSES {
            return Ok(Some(ImportCode::TooManyHosts));
        }
        if count >= MOST_EVENTS {
            return Ok(Some(ImportCode::TooManyEvents));
        }
        if is_new && self.clash.is_none() {
            self.clash = self.clash_at(alloc, line)?;
        }
        Ok(None)
    }

    /// The text up to its first fault.
    pub fn of(alloc: Global, text: &'a [u8]) -> Result<Scan<'a>, NoMemory>
        ensures { IfOk result (IsScan text.now) }
    {
        let mut scan = Scan::new(alloc);
        let mut left = HostLines::new(text);
        'lines: while let Some(line) = left.next() {
            if let Some(code) = scan.add(alloc, line)? {
                scan.fault = Some(ImportFault {
                    code,
                    line: line.line,
                });
                return Ok(scan);
            }
        }
        scan.fault = end_fault(&left, scan.lines.is_empty());
        Ok(scan)
    }
}
