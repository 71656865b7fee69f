//! What was found against a question.
ghost use Rattle.ask_text.specs.Indented.{indented};
ghost use Rattle.ask_text.specs.Text.{IsOfRun, at_text, block, evidence, found_rows, found_words};
ghost use Rattle.ask_text.specs.Text.{last_head, last_rows, operand_words, path_of};
ghost use Rattle.report_lines.specs.Spelling.{CutFits, PathFits};
ghost use Rattle.std.specs.List.{AllByRecursion};
ghost use Rattle.std.specs.Prelude.{◌≡◌, ◌++◌, ◌<◌, [], if◌then◌else◌, ◌==◌, codes, length, map};
ghost use Rattle.std.specs.Prelude.{OnOk, IfOk, option_copied};
ghost use Rattle.view_parts.specs.Parts.{place, place_text};

use crate::indented::put_indented;
use cut_lattice::Cut;
use event_log::States;
use pota_base::{Bytes, EventId, NoMemory, put_u64};
use question_meaning::Form;
use report_lines::WitnessText;
use view_parts::put_place;
use view_text::{Told, folded, put_step_rows, put_value_rows};
use witness_kinds::{Path, Witness};

/// The line with which a block begins.
pub const BLOCK_FRONT: &[u8] = b"---\n";

/// The line with which it ends.
pub const BLOCK_END: &[u8] = b"...\n";

// The path of a witness that has one.
fn path_of(witness: &Witness) -> Option<&Path>
    ensures { option_copied result ≡ path_of witness.now }
{
    match witness {
        Witness::Nothing => None,
        Witness::Reach(path) => Some(path),
        Witness::Against(path) => Some(path),
        Witness::Always(path) => Some(path),
        Witness::StuckStart => None,
        Witness::StuckFinish => None,
        Witness::StuckPair(_, _) => None,
    }
}

// What a witness of a formula without a form shows.
fn operand_words(witness: &Witness) -> &'static [u8]
    ensures { result.now ≡ operand_words witness.now }
{
    match witness {
        Witness::Nothing => b"",
        Witness::Reach(_) => b"the operand holds here",
        Witness::Against(_) => b"the operand does not hold here",
        Witness::Always(_) => b"the operand holds at each state on the way here",
        Witness::StuckStart => b"",
        Witness::StuckFinish => b"",
        Witness::StuckPair(_, _) => b"",
    }
}

// What a witness against a question of this form shows.
fn found_words(form: Form, witness: &Witness) -> &'static [u8]
    ensures { result.now ≡ found_words form witness.now }
{
    match form {
        Form::Never => b"the formula holds here",
        Form::Can => b"the formula holds here",
        Form::Always => b"the formula does not hold here",
        Form::AlwaysByNegation => b"the formula does not hold here",
        Form::Surely => b"an order of all events in which the formula holds at no state",
        Form::AtEnd => b"from here on the formula does not hold",
        Form::Plain => operand_words(witness),
    }
}

// Appends how many events of a process a cut has, behind those of the processes before it.
fn put_count(out: &mut Bytes, states: &States, process: u32, events: u32) -> Result<(), NoMemory>
    ensures { OnOk result (out.new ≡ out.old ++ ((if process == 0 then [] else codes ", ")
        ++ place_text states.now.header.procs (place process events))) }
{
    if process > 0 {
        out.extend_from_slice(b", ")?;
    }
    put_place(
        out,
        states,
        EventId {
            process,
            position: events,
        },
    )
}

// Appends how many events of each process a cut has.
fn put_at(out: &mut Bytes, states: &States, cut: &Cut) -> Result<(), NoMemory>
    requires { CutFits (map length states.now.events) cut.now }
    ensures { OnOk result (out.new ≡ out.old ++ at_text states.now cut.now) }
{
    for process in 0..states.header().procs.len() as u32 {
        put_count(out, states, process, cut.get(process))?;
    }
    Ok(())
}

// Appends what a path shows, and where it leads.
fn put_found(
    out: &mut Bytes,
    states: &States,
    form: Form,
    witness: &Witness,
    path: &Path,
) -> Result<(), NoMemory>
    requires { PathFits (map length states.now.events) path.now }
    ensures { OnOk result (out.new
        ≡ out.old ++ found_rows states.now form witness.now path.now) }
{
    out.extend_from_slice(b"found: ")?;
    out.extend_from_slice(found_words(form, witness))?;
    out.extend_from_slice(b"\nat: ")?;
    put_at(out, states, &path.goal)?;
    out.extend_from_slice(b"\nsteps: ")?;
    put_u64(out, path.steps.len() as u64)
}

// What stands before the last steps, the steps of a path that are shown, and the values at its
// goal.
fn last_rows(told: &Told<'_>, path: &Path) -> Result<Bytes, NoMemory>
    requires { PathFits (map length told.now.states.now.events) path.now }
    ensures { IfOk result (λ rows. rows ≡ last_head ++ last_rows told.now.states.now
        told.now.tokens.now told.now.extent path.now) }
{
    let mut rows = Bytes::new(told.alloc);
    rows.extend_from_slice(b"the last steps, each with its line of the log:\n")?;
    put_step_rows(&mut rows, told, path)?;
    put_value_rows(&mut rows, told.states, told.tokens, &path.goal)?;
    Ok(rows)
}

// What stands in a block, before long lines are broken.
fn found(told: &Told<'_>, form: Form, witness: &Witness, path: &Path) -> Result<Bytes, NoMemory>
    requires { PathFits (map length told.now.states.now.events) path.now }
    ensures { IfOk result (λ rows. rows ≡ found_rows told.now.states.now form witness.now path.now
        ++ codes "\nlast: |\n" ++ indented (last_head ++ last_rows told.now.states.now
        told.now.tokens.now told.now.extent path.now)) }
{
    let mut rows = Bytes::new(told.alloc);
    put_found(&mut rows, told.states, form, witness, path)?;
    rows.extend_from_slice(b"\nlast: |\n")?;
    let last = last_rows(told, path)?;
    put_indented(&mut rows, last.as_slice())?;
    Ok(rows)
}

// Appends the block of a path, with this front.
fn put_block(
    out: &mut Bytes,
    front: &[u8],
    told: &Told<'_>,
    form: Form,
    witness: &Witness,
    path: &Path,
) -> Result<(), NoMemory>
    requires { PathFits (map length told.now.states.now.events) path.now }
    ensures { OnOk result (out.new ≡ out.old ++ block front.now told.now.states.now
        told.now.tokens.now told.now.extent form witness.now path.now) }
{
    let found = found(told, form, witness, path)?;
    let lines = folded(told.alloc, found.as_slice())?;
    out.extend_from_slice(front)?;
    out.extend_from_slice(lines.as_slice())?;
    out.extend_from_slice(BLOCK_END)
}

/// Appends the block of the first of the witnesses that has a path, with this front, and where none
/// has, other bytes.
pub fn put_evidence(
    out: &mut Bytes,
    front: &[u8],
    none: &[u8],
    told: &Told<'_>,
    form: Form,
    witnesses: &[WitnessText],
) -> Result<(), NoMemory>
    requires { AllByRecursion (IsOfRun (map length told.now.states.now.events))
        witnesses.now }
    ensures { OnOk result (out.new ≡ out.old ++ evidence front.now none.now told.now.states.now
        told.now.tokens.now told.now.extent form witnesses.now) }
{
    for witness in witnesses {
        if let Some(path) = path_of(&witness.witness) {
            return put_block(out, front, told, form, &witness.witness, path);
        }
    }
    out.extend_from_slice(none)
}
