//! What lines of a log and of a report are made of.

ghost use Rattle.std.specs.Prelude.{◌≡◌, ◌++◌, ◌∷◌, OnOk};
ghost use Rattle.log_lines.specs.Spelling.{names_text, clock_rest, clock_text};

use log_lines::Name;
use pota_base::{Bytes, NoMemory, put_u64};

/// Appends a space and the word.
pub fn put_spaced(out: &mut Bytes, word: &[u8]) -> Result<(), NoMemory>
    ensures { OnOk result (out.new ≡ out.old ++ 32 ∷ word.now) }
{
    out.push(b' ')?;
    out.extend_from_slice(word)
}

/// Writes ` NAME` for each of the names.
pub fn put_names(out: &mut Bytes, names: &[Name]) -> Result<(), NoMemory>
    ensures { OnOk result (out.new ≡ out.old ++ names_text names.now) }
{
    for name in names {
        put_spaced(out, name.as_bytes())?;
    }
    Ok(())
}

// `,NAT,NAT..`
fn put_clock_rest(out: &mut Bytes, clock: &[u32]) -> Result<(), NoMemory>
    ensures { OnOk result (out.new ≡ out.old ++ clock_rest clock.now) }
{
    for count in clock {
        out.push(b',')?;
        put_u64(out, u64::from(*count))?;
    }
    Ok(())
}

/// Writes the counts of a clock or a cut, with commas between them.
pub fn put_clock(out: &mut Bytes, clock: &[u32]) -> Result<(), NoMemory>
    ensures { OnOk result (out.new ≡ out.old ++ clock_text clock.now) }
{
    match clock {
        [] => Ok(()),
        [first, rest @ ..] => {
            put_u64(out, u64::from(*first))?;
            put_clock_rest(out, rest)
        }
    }
}
