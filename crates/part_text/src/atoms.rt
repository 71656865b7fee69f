//! The texts of what has no operand.
ghost use Rattle.part_text.specs.Texts.{side_shape};
ghost use Rattle.rctl_grammar.specs.Shape.{comparison, difference, transit};
ghost use Rattle.rctl_print.specs.Canonical.{atom_text, channel_text, side_text, sign_of, spaced};
ghost use Rattle.std.specs.Fmt.{signed_decimal};
ghost use Rattle.std.specs.Prelude.{◌≡◌, ◌++◌, OnOk, codes};

use pota_base::{Bytes, NoMemory, put_i64, put_u64};
use rctl_class::NamedSide;
use rctl_grammar::{Compare, Place};

fn sign(compare: Compare) -> &'static [u8]
    ensures { result.now ≡ sign_of compare }
{
    match compare {
        Compare::Eq => b"=",
        Compare::Ne => b"!=",
        Compare::Lt => b"<",
        Compare::Le => b"<=",
        Compare::Gt => b">",
        Compare::Ge => b">=",
    }
}

// Appends a comparison's sign between two blanks.
fn put_sign(out: &mut Bytes, compare: Compare) -> Result<(), NoMemory>
    ensures { OnOk result (out.new ≡ out.old ++ spaced compare) }
{
    out.extend_from_slice(b" ")?;
    out.extend_from_slice(sign(compare))?;
    out.extend_from_slice(b" ")
}

/// Appends a name, what stands between, and the name of the place.
pub fn put_pair(
    out: &mut Bytes,
    process: &[u8],
    between: &[u8],
    place: &Place,
) -> Result<(), NoMemory>
    ensures { OnOk result (out.new ≡ out.old ++ process.now ++ between.now ++ place.now.name) }
{
    out.extend_from_slice(process)?;
    out.extend_from_slice(between)?;
    out.extend_from_slice(place.name.as_bytes())
}

fn put_side(out: &mut Bytes, process: &[u8], side: &NamedSide) -> Result<(), NoMemory>
    ensures { OnOk result (out.new ≡ out.old ++ side_text (side_shape process.now side.now)) }
{
    match side {
        NamedSide::Number(value) => put_i64(out, *value),
        NamedSide::Variable(name) => put_pair(out, process, b".", name),
    }
}

/// Appends `P.x = 1`.
pub fn put_comparison(
    out: &mut Bytes,
    process: &[u8],
    left: &Place,
    compare: Compare,
    side: &NamedSide,
) -> Result<(), NoMemory>
    ensures { OnOk result (out.new ≡ out.old ++ atom_text
        (comparison process.now left.now.name compare (side_shape process.now side.now))) }
{
    put_pair(out, process, b".", left)?;
    put_sign(out, compare)?;
    put_side(out, process, side)
}

// Appends `(P,Q)`.
fn put_channel(out: &mut Bytes, sender: &Place, receiver: &Place) -> Result<(), NoMemory>
    ensures { OnOk result (out.new ≡ out.old ++ channel_text sender.now.name receiver.now.name) }
{
    out.extend_from_slice(b"(")?;
    put_pair(out, sender.name.as_bytes(), b",", receiver)?;
    out.extend_from_slice(b")")
}

/// Appends `intransit(P,Q) <= 1`.
pub fn put_transit(
    out: &mut Bytes,
    sender: &Place,
    receiver: &Place,
    compare: Compare,
    k: u64,
) -> Result<(), NoMemory>
    ensures { OnOk result (out.new ≡ out.old
        ++ atom_text (transit sender.now.name receiver.now.name compare k)) }
{
    out.extend_from_slice(b"intransit")?;
    put_channel(out, sender, receiver)?;
    put_sign(out, compare)?;
    put_u64(out, k)
}

// Appends `P.x`.
fn put_variable(out: &mut Bytes, process: &Place, name: &Place) -> Result<(), NoMemory>
    ensures { OnOk result (out.new ≡ out.old ++ process.now.name ++ codes "." ++ name.now.name) }
{
    put_pair(out, process.name.as_bytes(), b".", name)
}

// Appends the spelling of a number, with `-` before a negative one.
fn put_i128(out: &mut Bytes, value: i128) -> Result<(), NoMemory>
    ensures { OnOk result (out.new ≡ out.old ++ signed_decimal value) }
{
    let mut buffer = itoa::Buffer::new();
    out.extend_from_slice(buffer.format(value).as_bytes())
}

/// Appends `P.x - Q.y <= 2`.
pub fn put_difference(
    out: &mut Bytes,
    left_process: &Place,
    left: &Place,
    right_process: &Place,
    right: &Place,
    compare: Compare,
    k: i128,
) -> Result<(), NoMemory>
    ensures { OnOk result (out.new ≡ out.old ++ atom_text (difference left_process.now.name
        left.now.name right_process.now.name right.now.name compare k)) }
{
    put_variable(out, left_process, left)?;
    out.extend_from_slice(b" - ")?;
    put_variable(out, right_process, right)?;
    put_sign(out, compare)?;
    put_i128(out, k)
}
