//! Rows of numbers that fit 16 bits, appended to entries.
ghost use Rattle.std.specs.Prelude.{◌≡◌, ℕ, ◌+◌, ◌^◌, ◌<◌, ◌≤◌, ◌∷◌, ◌++◌, length, take, drop};
ghost use Rattle.std.specs.Prelude.{slice_index, OnOk, OnErr};

use pota_base::NoMemory;

/// How many numbers of a longer row are made narrow before they are appended.
const PIECE: usize = 512;

/// Appends the numbers of the row, which fit 16 bits. Without memory for all of them none is
/// appended.
pub(crate) fn push_narrow(entries: &mut Vec<u16>, row: &[u32]) -> Result<(), NoMemory>
    requires { (i : ℕ) → slice_index row.now i < 2 ^ 16 }
    ensures ok { OnOk result (entries.new.items ≡ entries.old.items ++ row.now) }
    ensures err { OnErr result (entries.new.items ≡ entries.old.items) }
{
    if row.len() > PIECE {
        return push_pieces(entries, row);
    }
    let begin = entries.len();
    entries.resize(begin + row.len(), 0)?;
    narrow(row, &mut entries[begin..]);
    Ok(())
}

/// Appends the numbers of a long row as `push_narrow` does, but piece by piece, so that the memory
/// of the entries is written once.
fn push_pieces(entries: &mut Vec<u16>, row: &[u32]) -> Result<(), NoMemory>
    requires { (i : ℕ) → slice_index row.now i < 2 ^ 16 }
    ensures ok { OnOk result (entries.new.items ≡ entries.old.items ++ row.now) }
    ensures err { OnErr result (entries.new.items ≡ entries.old.items) }
{
    entries.reserve(row.len())?;
    let mut room = [0; PIECE];
    let mut rest = row;
    while !rest.is_empty() {
        let (part, behind) = rest.split_at(rest.len().min(PIECE));
        let piece = &mut room[..part.len()];
        narrow(part, piece);
        entries.extend_from_slice(piece)?;
        rest = behind;
    }
    Ok(())
}

/// Writes the numbers of the row, which fit 16 bits.
fn narrow(row: &[u32], places: &mut [u16])
    requires size { length row.now ≡ length places.old }
    requires entries { (i : ℕ) → slice_index row.now i < 2 ^ 16 }
    ensures { places.new ≡ row.now }
{
    for (i, &entry) in row.iter().enumerate() {
        places[i] = entry as u16;
    }
}

/// Appends the numbers of the row, which fit 16 bits, with a 0 at this place between them. Without
/// memory for all of them none is appended.
pub(crate) fn push_around(entries: &mut Vec<u16>, place: usize, row: &[u32]) -> Result<(), NoMemory>
    requires place { place ≤ length row.now }
    requires entries { (i : ℕ) → slice_index row.now i < 2 ^ 16 }
    ensures ok { OnOk result
        (entries.new.items ≡ entries.old.items ++ take place row.now ++ 0 ∷ drop place row.now) }
    ensures err { OnErr result (entries.new.items ≡ entries.old.items) }
{
    let begin = entries.len();
    entries.resize(begin + row.len() + 1, 0)?;
    narrow_around(row, place, &mut entries[begin..]);
    Ok(())
}

/// Writes the numbers of the row, which fit 16 bits, with a 0 at this place between them.
fn narrow_around(row: &[u32], place: usize, places: &mut [u16])
    requires size { length row.now + 1 ≡ length places.old }
    requires place { place ≤ length row.now }
    requires entries { (i : ℕ) → slice_index row.now i < 2 ^ 16 }
    ensures { places.new ≡ take place row.now ++ 0 ∷ drop place row.now }
{
    narrow(&row[..place], &mut places[..place]);
    places[place] = 0;
    narrow(&row[place..], &mut places[place + 1..]);
}
