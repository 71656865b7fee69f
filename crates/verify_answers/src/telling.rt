//! What is told of an answer.
ghost use Rattle.std.specs.Prelude.{◌≡◌, ◌≤◌, ◌++◌, ◌∷◌, [], IsOk, OnErr, OnOk, Some};
ghost use Rattle.std.specs.Fmt.{decimal};
ghost use Rattle.verify_answers.specs.declared.answer.Answer.TheVariants.{Refused};
ghost use Rattle.std.specs.Io.KnownBytes.{Appends};
ghost use Rattle.pota_base.specs.Outside.{AppendsPrefix, HasCause};
ghost use Rattle.pota_base.specs.Changes.{of_sink};
ghost use Rattle.fault_line.specs.Lines.{Told};
ghost use Rattle.verify_answers.specs.Telling.{IsTold, fault_line_of, line_of};
ghost use Rattle.verify_answers.specs.inside.Telling.{HasNoLine};

use crate::answer::{Answer, Verified};
use fault_line::{Fault, tell};
use pota_base::{Failed, Sink, write_all};

// Writes two texts, one behind the other.
fn write_both<O: Sink>(out: &mut O, first: &[u8], second: &[u8]) -> Result<(), Failed>
    ensures whole { OnOk result
        (Appends (O.held out.old) (O.held out.new) (first.now ++ second.now)) }
    ensures part { OnErr result
        (AppendsPrefix (O.held out.old) (O.held out.new) (first.now ++ second.now)) }
    ensures cause { HasCause (O.faults out.old) (O.faults out.new) result }
{
    if let Err(failed) = write_all(out, first) {
        return Err(failed);
    }
    write_all(out, second)
}

// Writes the number of a refused line and a line feed.
fn write_number<O: Sink>(out: &mut O, number: u64) -> Result<(), Failed>
    ensures whole { OnOk result
        (Appends (O.held out.old) (O.held out.new) (decimal number ++ 10 ∷ [])) }
    ensures part { OnErr result
        (AppendsPrefix (O.held out.old) (O.held out.new) (decimal number ++ 10 ∷ [])) }
    ensures cause { HasCause (O.faults out.old) (O.faults out.new) result }
{
    let mut digits = itoa::Buffer::new();
    write_both(out, digits.format(number).as_bytes(), b"\n")
}

// Writes that a line is refused.
fn write_refused<O: Sink>(out: &mut O, number: u64) -> Result<(), Failed>
    ensures whole { OnOk result
        (Appends (O.held out.old) (O.held out.new) (line_of (Refused number))) }
    ensures part { OnErr result
        (AppendsPrefix (O.held out.old) (O.held out.new) (line_of (Refused number))) }
    ensures cause { HasCause (O.faults out.old) (O.faults out.new) result }
{
    if let Err(failed) = write_all(out, b"refused line ") {
        return Err(failed);
    }
    write_number(out, number)
}

// Writes the line of an answer, and nothing where there is a fault.
fn write_answer<O: Sink>(out: &mut O, answer: &Answer) -> Result<(), Failed>
    ensures whole { OnOk result
        (Appends (O.held out.old) (O.held out.new) (line_of answer.now)) }
    ensures part { OnErr result
        (AppendsPrefix (O.held out.old) (O.held out.new) (line_of answer.now)) }
    ensures cause { HasCause (O.faults out.old) (O.faults out.new) result }
    ensures faulty { HasNoLine answer.now → IsOk result }
{
    match answer {
        Answer::Accepted(true) => write_all(out, b"accepted true\n"),
        Answer::Accepted(false) => write_all(out, b"accepted false\n"),
        Answer::Refused(line) => write_refused(out, *line),
        Answer::Faulty(_) => Ok(()),
    }
}

/// Tells `out` what a log and its certificate are, and says what its caller is told. Where there is
/// a fault nothing is written.
pub fn tell_answer<O: Sink>(out: &mut O, answer: &Answer) -> Verified
    ensures told { IsTold (of_sink O.Sink out.old out.new) answer.now result }
    ensures later { O.faults out.old ≤ O.faults out.new }
{
    match write_answer(out, answer) {
        Ok(()) => answer.verified(),
        Err(_) => Answer::Faulty(Fault::Write).verified(),
    }
}

// Tells `diag` of this fault.
fn tell_cause<D: Sink>(diag: &mut D, fault: &Fault)
    ensures { Told (of_sink D.Sink diag.old diag.new) (fault_line_of (Some fault.now)) }
{
    match fault {
        Fault::Usage => {
            let _ = write_all(diag, b"pota_verify: usage: pota_verify FORMULA\n");
        }
        _ => tell(diag, b"pota_verify", &Some(*fault)),
    }
}

/// Tells `diag` of a fault, and nothing where there is none. Whether that succeeds changes nothing
/// else.
pub fn tell_fault<D: Sink>(diag: &mut D, fault: &Option<Fault>)
    ensures { Told (of_sink D.Sink diag.old diag.new) (fault_line_of fault.now) }
{
    match fault {
        Some(fault) => tell_cause(diag, fault),
        None => {}
    }
}
