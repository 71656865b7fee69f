//! The one line that tells of a run without a verdict. It takes no memory.
ghost use Rattle.std.specs.Prelude.{◌≡◌, ◌+◌, ◌≤◌, ◌++◌, [], List, length, take};
ghost use Rattle.pota_base.specs.Changes.{of_sink};
ghost use Rattle.fault_line.specs.Lines.{usage_text, formula_text, log_text, import_text};
ghost use Rattle.fault_line.specs.Lines.{merge_text, line_by, cause_of, Told};

use crate::fault::Fault;
use crate::texts::{formula_code_text, import_code_text, log_code_text, merge_code_text};
use event_log::LogFault;
use fault_kinds::{ImportFault, MergeFault};
use pota_base::{Sink, write_all};
use rctl_grammar::FormulaFault;
use std::marker::Model;

const ROOM: usize = 256;

/// A text of at most 256 bytes.
#[derive(Drop)]
struct Line {
    bytes: [u8; ROOM],
    len: usize,
}

impl Model for Line {
    ghost use Rattle.std.specs.Prelude.{◌≤◌, List, ℕ, take};

    ghost Value = { List ℕ };

    ghost view = { λ line. take line.len line.bytes };

    ghost invariant = { λ line. line.len ≤ 256 };
}

impl Line {
    fn new() -> Line
        ensures { result ≡ [] }
    {
        Line {
            bytes: [0; ROOM],
            len: 0,
        }
    }

    fn push(&mut self, text: &[u8])
        requires { length self.old + length text.now ≤ 256 }
        ensures { self.new ≡ self.old ++ text.now }
    {
        let end = self.len + text.len();
        self.bytes[self.len..end].copy_from_slice(text);
        self.len = end;
    }

    fn as_slice(&self) -> &[u8]
        ensures { result.now ≡ self.now }
    {
        &self.bytes[..self.len]
    }
}

fn put_usage(line: &mut Line)
    requires { length line.old ≤ 16 }
    ensures text { line.new ≡ line.old ++ usage_text }
    ensures room { length line.new ≤ 224 }
{
    line.push(b"usage: pota check FORMULA [--workers N] [--slice] [--witness] [--each-batch]");
    line.push(b" [--vclog] [--merged]");
    line.push(b" or pota bench FORMULA --seed N --procs N --events N [--workers N]");
    line.push(b" or pota certify FORMULA");
}

fn put_formula_fault(line: &mut Line, fault: &FormulaFault)
    requires { length line.old ≤ 16 }
    ensures text { line.new ≡ line.old ++ formula_text fault.now }
    ensures room { length line.new ≤ 224 }
{
    let mut digits = itoa::Buffer::new();
    line.push(b"formula byte ");
    line.push(digits.format(fault.place).as_bytes());
    line.push(b": ");
    line.push(formula_code_text(fault.code));
}

fn put_log_fault(line: &mut Line, fault: &LogFault)
    requires { length line.old ≤ 16 }
    ensures text { line.new ≡ line.old ++ log_text fault.now }
    ensures room { length line.new ≤ 224 }
{
    let mut digits = itoa::Buffer::new();
    line.push(b"log line ");
    line.push(digits.format(fault.line).as_bytes());
    line.push(b": ");
    line.push(log_code_text(fault.code));
}

fn put_import_fault(line: &mut Line, fault: &ImportFault)
    requires { length line.old ≤ 16 }
    ensures text { line.new ≡ line.old ++ import_text fault.now }
    ensures room { length line.new ≤ 224 }
{
    let mut digits = itoa::Buffer::new();
    line.push(b"log line ");
    line.push(digits.format(fault.line).as_bytes());
    line.push(b": ");
    line.push(import_code_text(fault.code));
}

fn put_merge_fault(line: &mut Line, fault: &MergeFault)
    requires { length line.old ≤ 16 }
    ensures text { line.new ≡ line.old ++ merge_text fault.now }
    ensures room { length line.new ≤ 224 }
{
    let mut digits = itoa::Buffer::new();
    line.push(b"log source ");
    line.push(digits.format(fault.source).as_bytes());
    line.push(b" line ");
    line.push(digits.format(fault.line).as_bytes());
    line.push(b": ");
    line.push(merge_code_text(fault.code));
}

fn put_cause(line: &mut Line, fault: &Fault)
    requires { length line.old ≤ 16 }
    ensures text { line.new ≡ line.old ++ cause_of fault.now }
    ensures room { length line.new ≤ 224 }
{
    match fault {
        Fault::Usage => put_usage(line),
        Fault::Formula(fault) => put_formula_fault(line, fault),
        Fault::Log(fault) => put_log_fault(line, fault),
        Fault::Import(fault) => put_import_fault(line, fault),
        Fault::Merge(fault) => put_merge_fault(line, fault),
        Fault::Read => line.push(b"read fault"),
        Fault::Write => line.push(b"write fault"),
        Fault::Memory => line.push(b"out of memory"),
    }
}

/// Tells `diag` why a run of the program gave no verdict, and nothing where it gave one. Whether
/// that succeeds changes nothing else.
pub fn tell<D: Sink>(diag: &mut D, program: &[u8], fault: &Option<Fault>)
    requires { length program.now ≤ 11 }
    ensures { Told (of_sink D.Sink diag.old diag.new) (line_by program.now fault.now) }
{
    let Some(fault) = fault else {
        return;
    };
    let mut line = Line::new();
    line.push(program);
    line.push(b": ");
    put_cause(&mut line, fault);
    line.push(b"\n");
    let _ = write_all(diag, line.as_slice());
}
