//! The one line that tells why there is no view. It takes no memory.
ghost use Rattle.std.specs.Prelude.{◌≡◌, Some};
ghost use Rattle.pota_base.specs.Changes.{of_sink};
ghost use Rattle.fault_line.specs.Lines.{Told, line_by};
ghost use Rattle.view_top.specs.Faults.{line_of, program};
ghost use Rattle.view_top.specs.inside.Faults.{report_line};
ghost use Rattle.view_top.specs.inside.Telling.{Puts};

use crate::fault::Fault;
use fault_line::Fault as Shared;
use pota_base::{Failed, Sink, write_all};

// Writes the line of a report's fault, piece by piece.
fn write_report_line<D: Sink>(diag: &mut D, line: u64) -> Result<(), Failed>
    ensures { Puts (D.held diag.old) (D.held diag.new) (D.faults diag.old) (D.faults diag.new)
        (report_line line) result }
{
    let mut digits = itoa::Buffer::new();
    if let Err(failed) = write_all(diag, b"pota_view: report line ") {
        return Err(failed);
    }
    if let Err(failed) = write_all(diag, digits.format(line).as_bytes()) {
        return Err(failed);
    }
    write_all(diag, b": bad line\n")
}

// Tells of a fault of the report at this line.
fn put_report_line<D: Sink>(diag: &mut D, line: u64)
    ensures { Told (of_sink D.Sink diag.old diag.new) (report_line line) }
{
    let _ = write_report_line(diag, line);
}

// Writes a line that needs no number.
fn put<D: Sink>(diag: &mut D, line: &[u8])
    ensures { Told (of_sink D.Sink diag.old diag.new) line.now }
{
    let _ = write_all(diag, line);
}

// Tells of a fault that `pota` may have too, as it does.
fn put_shared<D: Sink>(diag: &mut D, fault: Shared)
    ensures { Told (of_sink D.Sink diag.old diag.new) (line_by program (Some fault)) }
{
    fault_line::tell(diag, b"pota_view", &Some(fault));
}

/// Tells `diag` why there is no view. Whether that succeeds changes nothing else.
pub fn tell<D: Sink>(diag: &mut D, fault: &Fault)
    ensures { Told (of_sink D.Sink diag.old diag.new) (line_of (Some fault.now)) }
{
    match fault {
        Fault::Usage => put(
            diag,
            b"pota_view: usage: pota_view text or pota_view svg, with --all or --last N\n",
        ),
        Fault::Log(fault) => put_shared(diag, Shared::Log(*fault)),
        Fault::NoReport => put(diag, b"pota_view: no report behind the log\n"),
        Fault::Report(fault) => put_report_line(diag, fault.line),
        Fault::TooLong => put(diag, b"pota_view: input too long\n"),
        Fault::OtherLog => put(diag, b"pota_view: report of another log\n"),
        Fault::Read => put_shared(diag, Shared::Read),
        Fault::Write => put_shared(diag, Shared::Write),
        Fault::Memory => put_shared(diag, Shared::Memory),
    }
}
