//! Copies of what a report tells as it stands elsewhere.
ghost use Rattle.std.specs.Prelude.{◌≡◌, ◌≤◌, true, length, IfOk};
ghost use Rattle.std.specs.List.{AllByRecursion};
ghost use Rattle.pota_base.specs.Limits.{most_processes};
ghost use Rattle.pota_names.specs.Names.{is_name};

use cut_lattice::Cut;
use pota_base::{Bytes, List, NoMemory};
use pota_names::Name;
use slice_graph::set_words;
use std::alloc::Global;

/// The cut that has these counts.
pub fn cut_of(alloc: Global, counts: &[u32]) -> Result<Cut, NoMemory>
    requires { length counts.now ≤ most_processes }
    ensures { IfOk result (λ cut. cut ≡ counts.now) }
{
    let mut cut = Cut::new(alloc, counts.len() as u32)?;
    set_words(counts, &mut cut);
    Ok(cut)
}

/// The names, each in memory of its own.
pub fn copy_names(alloc: Global, names: &[Name]) -> Result<List<Name>, NoMemory>
    ensures copies { IfOk result (λ copies. copies ≡ names.now) }
    ensures names { IfOk result (AllByRecursion (λ name. is_name name ≡ true)) }
{
    let mut copies = List::new(alloc);
    for name in names {
        // By its clause the bytes are those of a name.
        let _bytes = name.as_bytes();
        copies.push(name.copy(alloc)?)?;
    }
    Ok(copies)
}

/// The text, in memory of its own.
pub fn copy_text(alloc: Global, text: &Bytes) -> Result<Bytes, NoMemory>
    ensures { IfOk result (λ copy. copy ≡ text.now) }
{
    let mut copy = Bytes::new(alloc);
    copy.extend_from_slice(text.as_slice())?;
    Ok(copy)
}
