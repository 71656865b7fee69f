//! The text of what stands at a leaf.
ghost use Rattle.std.specs.Prelude.{◌≡◌, ◌++◌, OnOk};
ghost use Rattle.rctl_grammar.specs.Shape.{comparison, difference, plain_side, plain_atom};
ghost use Rattle.rctl_grammar.specs.Shape.{transit};
ghost use Rattle.rctl_print.specs.Canonical.{atom_text, sign_of, spaced, side_text, channel_text};

use pota_base::{Bytes, NoMemory, put_i64, put_u64};
use rctl_grammar::{Atom, Compare, Name, Place, Side};

fn sign(compare: Compare) -> &'static [u8]
    ensures { result.now ≡ sign_of compare }
{
    match compare {
        Compare::Eq => b"=",
        Compare::Ne => b"!=",
        Compare::Lt => b"<",
        Compare::Le => b"<=",
        Compare::Gt => b">",
        Compare::Ge => b">=",
    }
}

/// Appends the name.
pub fn put_name(out: &mut Bytes, name: &Name) -> Result<(), NoMemory>
    ensures { OnOk result (out.new ≡ out.old ++ name.now) }
{
    out.extend_from_slice(name.as_bytes())
}

/// Appends a name, what stands between, and another name.
fn put_pair(out: &mut Bytes, left: &Place, between: &[u8], right: &Place) -> Result<(), NoMemory>
    ensures { OnOk result (out.new ≡ out.old ++ left.now.name ++ between.now ++ right.now.name) }
{
    put_name(out, &left.name)?;
    out.extend_from_slice(between)?;
    put_name(out, &right.name)
}

/// Appends a comparison's sign between two blanks.
fn put_sign(out: &mut Bytes, compare: Compare) -> Result<(), NoMemory>
    ensures { OnOk result (out.new ≡ out.old ++ spaced compare) }
{
    out.extend_from_slice(b" ")?;
    out.extend_from_slice(sign(compare))?;
    out.extend_from_slice(b" ")
}

fn put_side(out: &mut Bytes, side: &Side) -> Result<(), NoMemory>
    ensures { OnOk result (out.new ≡ out.old ++ side_text (plain_side side.now)) }
{
    match side {
        Side::Number(value) => put_i64(out, *value),
        Side::Variable { process, variable } => put_pair(out, process, b".", variable),
    }
}

/// Appends `WORD(P,Q)`.
fn put_channel(
    out: &mut Bytes,
    word: &[u8],
    sender: &Place,
    receiver: &Place,
) -> Result<(), NoMemory>
    ensures { OnOk result (out.new ≡ out.old ++ word.now
        ++ channel_text sender.now.name receiver.now.name) }
{
    out.extend_from_slice(word)?;
    out.extend_from_slice(b"(")?;
    put_pair(out, sender, b",", receiver)?;
    out.extend_from_slice(b")")
}

fn put_comparison(
    out: &mut Bytes,
    process: &Place,
    variable: &Place,
    compare: Compare,
    side: &Side,
) -> Result<(), NoMemory>
    ensures { OnOk result (out.new ≡ out.old ++ atom_text (comparison process.now.name
        variable.now.name compare (plain_side side.now))) }
{
    put_pair(out, process, b".", variable)?;
    put_sign(out, compare)?;
    put_side(out, side)
}

fn put_transit(
    out: &mut Bytes,
    sender: &Place,
    receiver: &Place,
    compare: Compare,
    k: u64,
) -> Result<(), NoMemory>
    ensures { OnOk result (out.new ≡ out.old
        ++ atom_text (transit sender.now.name receiver.now.name compare k)) }
{
    put_channel(out, b"intransit", sender, receiver)?;
    put_sign(out, compare)?;
    put_u64(out, k)
}

fn put_difference(
    out: &mut Bytes,
    left_process: &Place,
    left: &Place,
    right_process: &Place,
    right: &Place,
    compare: Compare,
    k: i64,
) -> Result<(), NoMemory>
    ensures { OnOk result (out.new ≡ out.old ++ atom_text (difference left_process.now.name
        left.now.name right_process.now.name right.now.name compare k)) }
{
    put_pair(out, left_process, b".", left)?;
    out.extend_from_slice(b" - ")?;
    put_pair(out, right_process, b".", right)?;
    put_sign(out, compare)?;
    put_i64(out, k)
}

/// Appends the text of a leaf.
pub fn put_atom(out: &mut Bytes, atom: &Atom) -> Result<(), NoMemory>
    ensures { OnOk result (out.new ≡ out.old ++ atom_text (plain_atom atom.now)) }
{
    match atom {
        Atom::Truth(true) => out.extend_from_slice(b"true"),
        Atom::Truth(false) => out.extend_from_slice(b"false"),
        Atom::Local {
            process,
            variable,
            compare,
            side,
        } => put_comparison(out, process, variable, *compare, side),
        Atom::Watch { process, watch } => put_pair(out, process, b"@", watch),
        Atom::InTransit {
            sender,
            receiver,
            compare,
            k,
        } => put_transit(out, sender, receiver, *compare, *k),
        Atom::Empty { sender, receiver } => put_channel(out, b"empty", sender, receiver),
        Atom::Difference {
            left_process,
            left,
            right_process,
            right,
            compare,
            k,
        } => put_difference(out, left_process, left, right_process, right, *compare, *k),
    }
}
