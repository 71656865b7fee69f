//! What is told of a log: the one line that says why none is written, which takes no memory, or the
//! lines on what it leaves out.
ghost use Rattle.std.specs.Prelude.{◌≡◌, ◌++◌, codes, map, string_bytes};
ghost use Rattle.std.specs.Prelude.{[], ◌∷◌, Some, OnOk, OnErr};
ghost use Rattle.std.specs.Io.KnownBytes.{Appends};
ghost use Rattle.pota_base.specs.Outside.{AppendsPrefix, HasCause};
ghost use Rattle.pota_base.specs.Changes.{of_sink};
ghost use Rattle.fault_line.specs.Lines.{Told, line_by};
ghost use Rattle.one_log.specs.Faults.{line_of, program, unknown_text, word_at};
ghost use Rattle.one_log.specs.LeftOut.{told_of};

use crate::fault::Fault;
use fault_line::Fault as Shared;
use pota_base::{Failed, Sink, write_all};

const USAGE: &[u8] = b"pota_log: usage: pota_log [--merged] [--vclog] [--torn] [--one-batch] \
    [--keep NAME.VARIABLE] [--keep NAME>NAME] [--keep NAME]\n";

// Writes a line that `pota` hasn't.
fn put<D: Sink>(diag: &mut D, line: &[u8])
    ensures { Told (of_sink D.Sink diag.old diag.new) line.now }
{
    let _ = write_all(diag, line);
}

// Tells of a fault that `pota` may have too, as it does.
fn put_shared<D: Sink>(diag: &mut D, fault: Shared)
    ensures { Told (of_sink D.Sink diag.old diag.new) (line_by program (Some fault)) }
{
    fault_line::tell(diag, b"pota_log", &Some(fault));
}

// The word at this place; it is empty where there is none.
fn word_at(words: &[String], place: usize) -> &[u8]
    ensures { result.now ≡ word_at (map string_bytes words.now) place }
{
    match words.get(place) {
        Some(word) => word.as_bytes(),
        None => b"",
    }
}

// Writes these pieces one behind another, as far as that succeeds.
fn put_pieces<D: Sink>(diag: &mut D, first: &[u8], word: &[u8], last: &[u8]) -> Result<(), Failed>
    ensures whole { OnOk result (Appends (D.held diag.old) (D.held diag.new)
        (first.now ++ (word.now ++ last.now))) }
    ensures part { OnErr result (AppendsPrefix (D.held diag.old) (D.held diag.new)
        (first.now ++ (word.now ++ last.now))) }
    ensures cause { HasCause (D.faults diag.old) (D.faults diag.new) result }
{
    write_all(diag, first)?;
    write_all(diag, word)?;
    write_all(diag, last)
}

// Tells of the word that names what the log does not have.
fn put_unknown<D: Sink>(diag: &mut D, word: &[u8])
    ensures { Told (of_sink D.Sink diag.old diag.new)
        (program ++ (codes ": " ++ (unknown_text word.now ++ 10 ∷ []))) }
{
    let _ = put_pieces(diag, b"pota_log: --keep ", word, b": not in the log\n");
}

// Tells why no log is written.
fn tell_fault<D: Sink>(diag: &mut D, words: &[String], fault: &Fault)
    ensures { Told (of_sink D.Sink diag.old diag.new)
        (line_of (map string_bytes words.now) (Some fault.now)) }
{
    match fault {
        Fault::Usage => put(diag, USAGE),
        Fault::Unknown { word } => put_unknown(diag, word_at(words, *word)),
        Fault::Refused(refusal) => put_shared(diag, Shared::of_refusal(*refusal)),
        Fault::TooLong => put(diag, b"pota_log: log too long\n"),
        Fault::Read => put_shared(diag, Shared::Read),
        Fault::Write => put_shared(diag, Shared::Write),
        Fault::Memory => put_shared(diag, Shared::Memory),
    }
}

/// Tells `diag` why no log is written for these words, or these lines where it is. Whether that
/// succeeds changes nothing else.
pub fn tell<D: Sink>(diag: &mut D, words: &[String], fault: &Option<Fault>, lines: &[u8])
    ensures { Told (of_sink D.Sink diag.old diag.new)
        (told_of (map string_bytes words.now) fault.now lines.now) }
{
    match fault {
        Some(fault) => tell_fault(diag, words, fault),
        None => put(diag, lines),
    }
}
