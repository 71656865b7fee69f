//! The text of a part.
ghost use Rattle.part_text.specs.Texts.{part_text};
ghost use Rattle.part_text.specs.inside.Members.{shape_of_part};
ghost use Rattle.rctl_class.specs.NamedParts.{name_on, piece_of};
ghost use Rattle.rctl_grammar.specs.Shape.{conjunction_of};
ghost use Rattle.rctl_print.specs.Canonical.{canonical, needs_brackets, next_words, operator_word};
ghost use Rattle.rctl_print.specs.inside.Members.{member};
ghost use Rattle.rctl_print.specs.declared.joint.Joint.TheVariants.{Amp};
ghost use Rattle.std.specs.Prelude.{◌≡◌, ◌++◌, OnOk, codes, map};

use crate::atoms::{put_difference, put_transit};
use crate::expr;
use crate::expr::put_expr;
use crate::joined::Joined;
use pota_base::{Bytes, NoMemory};
use rctl_class::NamedPart;
use rctl_grammar::{Compare, Operator, Place};

// The name of the place, and nothing where there is none.
fn name_on(place: &Option<Place>) -> &[u8]
    ensures { result.now ≡ name_on place.now }
{
    match place {
        Some(place) => place.name.as_bytes(),
        None => b"",
    }
}

// Whether brackets stand round the part where it is one of several, or an operand.
#[tactic(auto, using(crate::proofs::Shapes::parts))]
fn needs_brackets(part: &NamedPart) -> bool
    ensures { result ≡ needs_brackets Amp (shape_of_part part.now) }
{
    match part {
        NamedPart::Local { process, expr } => {
            expr::needs_brackets(Joined::All, name_on(process), expr)
        }
        NamedPart::AtMost { .. } => false,
        NamedPart::AtLeast { .. } => false,
        NamedPart::Never { .. } => false,
        NamedPart::DiffAtMost { .. } => false,
        NamedPart::DiffAtLeast { .. } => false,
        NamedPart::Temporal { .. } => false,
        NamedPart::Next { .. } => false,
    }
}

// Whether brackets stand round the operand that the parts are.
fn operand_brackets(parts: &[NamedPart]) -> bool
    ensures { result ≡ needs_brackets Amp (conjunction_of (map shape_of_part parts.now)) }
{
    match parts {
        [] => false,
        [only] => needs_brackets(only),
        _ => true,
    }
}

fn operator_word(operator: Operator) -> &'static [u8]
    ensures { result.now ≡ operator_word operator }
{
    match operator {
        Operator::Ef => b"EF",
        Operator::Ag => b"AG",
        Operator::Eg => b"EG",
        Operator::Ex(_) => b"EX ",
        Operator::Af => b"AF",
        Operator::Ax => b"AX",
    }
}

// Appends the operator's word and a blank.
fn put_operator(out: &mut Bytes, operator: Operator) -> Result<(), NoMemory>
    ensures { OnOk result (out.new ≡ out.old ++ operator_word operator ++ codes " ") }
{
    out.extend_from_slice(operator_word(operator))?;
    out.extend_from_slice(b" ")
}

// Appends `EX P `.
fn put_next(out: &mut Bytes, process: &Place) -> Result<(), NoMemory>
    ensures { OnOk result (out.new ≡ out.old ++ next_words process.now.name) }
{
    out.extend_from_slice(b"EX ")?;
    out.extend_from_slice(process.name.as_bytes())?;
    out.extend_from_slice(b" ")
}

// Appends the text of one of several parts.
#[cycle(part)]
fn put_member(out: &mut Bytes, part: &NamedPart) -> Result<(), NoMemory>
    ensures { OnOk result (out.new ≡ out.old ++ member Amp (shape_of_part part.now)) }
{
    if !needs_brackets(part) {
        return put_part(out, part);
    }
    out.extend_from_slice(b"(")?;
    put_part(out, part)?;
    out.extend_from_slice(b")")
}

// Appends the text of all parts of an operand.
#[cycle(part)]
fn put_parts(out: &mut Bytes, parts: &[NamedPart]) -> Result<(), NoMemory>
    ensures { OnOk result (out.new ≡ out.old
        ++ canonical (conjunction_of (map shape_of_part parts.now))) }
{
    let Some((first, rest)) = parts.split_first() else {
        return out.extend_from_slice(b"true");
    };
    if rest.is_empty() {
        return put_part(out, first);
    }
    put_member(out, first)?;
    'parts: for part in rest {
        out.extend_from_slice(b" & ")?;
        put_member(out, part)?;
    }
    Ok(())
}

// Appends the text of an operand.
#[cycle(part)]
fn put_operand(out: &mut Bytes, parts: &[NamedPart]) -> Result<(), NoMemory>
    ensures { OnOk result (out.new ≡ out.old
        ++ member Amp (conjunction_of (map shape_of_part parts.now))) }
{
    if !operand_brackets(parts) {
        return put_parts(out, parts);
    }
    out.extend_from_slice(b"(")?;
    put_parts(out, parts)?;
    out.extend_from_slice(b")")
}

/// Appends the text of the part.
#[cycle(part)]
#[tactic(auto, using(crate::proofs::Shapes::parts))]
pub fn put_part(out: &mut Bytes, part: &NamedPart) -> Result<(), NoMemory>
    ensures { OnOk result (out.new ≡ out.old ++ part_text (piece_of part.now)) }
{
    match part {
        NamedPart::Local { process, expr } => put_expr(out, name_on(process), expr),
        NamedPart::AtMost {
            sender,
            receiver,
            k,
        } => put_transit(out, sender, receiver, Compare::Le, *k),
        NamedPart::AtLeast {
            sender,
            receiver,
            k,
        } => put_transit(out, sender, receiver, Compare::Ge, *k),
        NamedPart::Never { sender, receiver } => put_transit(out, sender, receiver, Compare::Lt, 0),
        NamedPart::DiffAtMost {
            left_process,
            left,
            right_process,
            right,
            k,
        } => put_difference(
            out,
            left_process,
            left,
            right_process,
            right,
            Compare::Le,
            *k,
        ),
        NamedPart::DiffAtLeast {
            left_process,
            left,
            right_process,
            right,
            k,
        } => put_difference(
            out,
            left_process,
            left,
            right_process,
            right,
            Compare::Ge,
            *k,
        ),
        NamedPart::Temporal { operator, parts } => {
            put_operator(out, *operator)?;
            put_operand(out, parts.as_slice())
        }
        NamedPart::Next { process, parts } => {
            put_next(out, process)?;
            put_operand(out, parts.as_slice())
        }
    }
}
