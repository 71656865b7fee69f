//! Comments on parts that hold nowhere.
ghost use Rattle.ask_text.specs.Text.{nowhere_line, nowhere_lines, part_at};
ghost use Rattle.part_text.specs.Texts.{part_text};
ghost use Rattle.rctl_class.specs.NamedParts.{disjuncts_of, piece_of};
ghost use Rattle.std.specs.Prelude.{◌≡◌, ◌++◌, OnOk, Some, option_copied, option_map};

use part_text::put_part;
use pota_base::{Bytes, List, NoMemory};
use question_outcome::PartPlace;
use rctl_class::NamedPart;

// The part at a place, both of its numbers from 1.
fn part_at(disjuncts: &[List<NamedPart>], place: PartPlace) -> Option<&NamedPart>
    ensures { option_map piece_of (option_copied result)
        ≡ part_at (disjuncts_of disjuncts.now) place }
{
    let parts = disjuncts.get(place.disjunct.saturating_sub(1) as usize)?;
    parts.as_slice().get(place.part.saturating_sub(1) as usize)
}

// Appends a comment on the part.
fn put_part_line(out: &mut Bytes, part: &NamedPart) -> Result<(), NoMemory>
    ensures { OnOk result (out.new ≡ out.old ++ nowhere_line (Some (piece_of part.now))) }
{
    out.extend_from_slice(b"# ")?;
    put_part(out, part)?;
    out.extend_from_slice(b" holds at no state of this log\n")
}

// Appends a comment on the part at a place.
fn put_nowhere_line(
    out: &mut Bytes,
    disjuncts: &[List<NamedPart>],
    place: PartPlace,
) -> Result<(), NoMemory>
    ensures { OnOk result (out.new
        ≡ out.old ++ nowhere_line (part_at (disjuncts_of disjuncts.now) place)) }
{
    match part_at(disjuncts, place) {
        Some(part) => put_part_line(out, part),
        None => Ok(()),
    }
}

/// Appends a comment on each part at these places.
pub fn put_nowhere(
    out: &mut Bytes,
    disjuncts: &[List<NamedPart>],
    places: &[PartPlace],
) -> Result<(), NoMemory>
    ensures { OnOk result (out.new
        ≡ out.old ++ nowhere_lines (disjuncts_of disjuncts.now) places.now) }
{
    for place in places {
        put_nowhere_line(out, disjuncts, *place)?;
    }
    Ok(())
}
