//! The lines of a fault: where it is, what stands there, what was expected, and an example.
ghost use Rattle.ask_faults.specs.Helps.{text_of};
ghost use Rattle.ask_faults.specs.Lines as lines;
ghost use Rattle.ask_faults.specs.Lines.{shown};
ghost use Rattle.std.specs.Prelude.{◌≡◌, ◌++◌, drop, map, take, OnOk};

use crate::help::{Help, entry_help};
use event_log::LogFault;
use fault_help::{
    import_example, import_expected, log_example, log_expected, merge_example, merge_expected,
};
use fault_kinds::{ImportFault, MergeFault, Refusal};
use fault_line::{import_code_text, log_code_text, merge_code_text};
use over_questions::EntryFault;
use pota_base::{Bytes, NoMemory, put_u64};

/// The most bytes that are shown of a question.
const MOST_SHOWN: usize = 40;

// Puts a line.
fn put_line(out: &mut Bytes, label: &[u8], text: &[u8]) -> Result<(), NoMemory>
    ensures { OnOk result (out.new ≡ out.old ++ lines.line label.now text.now) }
{
    out.extend_from_slice(b"pota_ask: ")?;
    out.extend_from_slice(label)?;
    out.extend_from_slice(text)?;
    out.push(b'\n')
}

// Puts what was expected, and an example.
fn put_expected(out: &mut Bytes, expected: &[u8], example: &[u8]) -> Result<(), NoMemory>
    ensures { OnOk result (out.new ≡ out.old ++ lines.help expected.now example.now) }
{
    put_line(out, b"expected: ", expected)?;
    put_line(out, b"for example: ", example)
}

// Puts the beginning of the line of a question's fault.
fn put_question(out: &mut Bytes, question: u64) -> Result<(), NoMemory>
    ensures { OnOk result (out.new ≡ out.old ++ lines.question_front question) }
{
    out.extend_from_slice(b"pota_ask: question ")?;
    put_u64(out, question)?;
    out.extend_from_slice(b": ")
}

// A byte as it is shown: a control byte as a space.
fn shown(byte: u8) -> u8
    ensures { result ≡ shown byte }
{
    if byte < 32 || byte == 127 { b' ' } else { byte }
}

// Puts bytes as they are shown.
fn put_shown(out: &mut Bytes, bytes: &[u8]) -> Result<(), NoMemory>
    ensures { OnOk result (out.new ≡ out.old ++ map shown bytes.now) }
{
    for byte in bytes {
        out.push(shown(*byte))?;
    }
    Ok(())
}

// What stands in a text from this byte on.
fn behind(text: &[u8], place: u64) -> &[u8]
    ensures { result.now ≡ drop place text.now }
{
    if place >= text.len() as u64 {
        return b"";
    }
    &text[place as usize..]
}

// As many bytes of it as are shown at most.
fn front(bytes: &[u8]) -> &[u8]
    ensures { result.now ≡ take 40 bytes.now }
{
    &bytes[..bytes.len().min(MOST_SHOWN)]
}

// Puts what stands in a question from this byte on.
fn put_there(out: &mut Bytes, text: &[u8], place: u64) -> Result<(), NoMemory>
    ensures { OnOk result (out.new ≡ out.old ++ lines.there text.now place) }
{
    let rest = behind(text, place);
    if rest.len() == 0 {
        return put_line(out, b"there: ", b"the end of the question");
    }
    out.extend_from_slice(b"pota_ask: there: ")?;
    put_shown(out, front(rest))?;
    out.push(b'\n')
}

// Puts where the fault of a question is, and what is wrong.
fn put_place(
    out: &mut Bytes,
    question: u64,
    text: &[u8],
    place: u64,
    wrong: &[u8],
) -> Result<(), NoMemory>
    ensures { OnOk result (out.new
        ≡ out.old ++ lines.placed question text.now place wrong.now) }
{
    put_question(out, question)?;
    out.extend_from_slice(b"byte ")?;
    put_u64(out, place)?;
    out.extend_from_slice(b": ")?;
    out.extend_from_slice(wrong)?;
    out.push(b'\n')?;
    put_there(out, text, place)
}

/// Puts the lines of a question that can't be read.
pub fn put_entry_fault(
    out: &mut Bytes,
    question: u64,
    text: &[u8],
    fault: EntryFault,
) -> Result<(), NoMemory>
    ensures { OnOk result (out.new ≡ out.old ++ lines.entry_lines question text.now fault) }
{
    let help = entry_help(text, fault);
    put_place(out, question, text, fault.place(), help.wrong)?;
    put_expected(out, help.expected, help.example)
}

/// Puts the lines of a fault of a whole question.
pub fn put_whole(out: &mut Bytes, question: u64, help: &Help) -> Result<(), NoMemory>
    ensures { OnOk result (out.new ≡ out.old ++ lines.whole_lines question (text_of help.now)) }
{
    put_question(out, question)?;
    out.extend_from_slice(help.wrong)?;
    out.push(b'\n')?;
    put_expected(out, help.expected, help.example)
}

// Puts the line of a fault at a line of the log.
fn put_at(out: &mut Bytes, line: u32, wrong: &[u8]) -> Result<(), NoMemory>
    ensures { OnOk result (out.new ≡ out.old ++ lines.at_line line wrong.now) }
{
    out.extend_from_slice(b"pota_ask: log line ")?;
    put_u64(out, u64::from(line))?;
    out.extend_from_slice(b": ")?;
    out.extend_from_slice(wrong)?;
    out.push(b'\n')
}

// Puts the line of a fault at a line of one of several logs.
fn put_at_source(out: &mut Bytes, fault: MergeFault) -> Result<(), NoMemory>
    ensures { OnOk result (out.new ≡ out.old ++ lines.at_source fault) }
{
    out.extend_from_slice(b"pota_ask: log source ")?;
    put_u64(out, u64::from(fault.source))?;
    out.extend_from_slice(b" line ")?;
    put_u64(out, u64::from(fault.line))?;
    out.extend_from_slice(b": ")?;
    out.extend_from_slice(merge_code_text(fault.code))?;
    out.push(b'\n')
}

// Puts the text of the log's line, if there is one.
fn put_line_there(out: &mut Bytes, text: &[u8]) -> Result<(), NoMemory>
    ensures { OnOk result (out.new ≡ out.old ++ lines.line_there text.now) }
{
    if text.is_empty() {
        return Ok(());
    }
    out.extend_from_slice(b"pota_ask: there: ")?;
    put_shown(out, text)?;
    out.push(b'\n')
}

fn put_log_fault(out: &mut Bytes, fault: LogFault, text: &[u8]) -> Result<(), NoMemory>
    ensures { OnOk result (out.new ≡ out.old ++ lines.log_lines fault text.now) }
{
    put_at(out, fault.line, log_code_text(fault.code))?;
    put_line_there(out, text)?;
    put_expected(out, log_expected(fault.code), log_example(fault.code))
}

fn put_import_fault(out: &mut Bytes, fault: ImportFault, text: &[u8]) -> Result<(), NoMemory>
    ensures { OnOk result (out.new ≡ out.old ++ lines.import_lines fault text.now) }
{
    put_at(out, fault.line, import_code_text(fault.code))?;
    put_line_there(out, text)?;
    put_expected(out, import_expected(fault.code), import_example(fault.code))
}

fn put_merge_fault(out: &mut Bytes, fault: MergeFault, text: &[u8]) -> Result<(), NoMemory>
    ensures { OnOk result (out.new ≡ out.old ++ lines.merge_lines fault text.now) }
{
    put_at_source(out, fault)?;
    put_line_there(out, text)?;
    put_expected(out, merge_expected(fault.code), merge_example(fault.code))
}

/// Puts the lines of a fault of the log, of whose line this is the text. Of a formula nothing is
/// judged with the log.
pub fn put_refusal(out: &mut Bytes, refusal: Refusal, text: &[u8]) -> Result<(), NoMemory>
    ensures { OnOk result (out.new ≡ out.old ++ lines.refusal_lines refusal text.now) }
{
    match refusal {
        Refusal::Formula(_) => Ok(()),
        Refusal::Log(fault) => put_log_fault(out, fault, text),
        Refusal::Import(fault) => put_import_fault(out, fault, text),
        Refusal::Merge(fault) => put_merge_fault(out, fault, text),
    }
}
