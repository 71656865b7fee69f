//! Where the entries of a fan's rows stand.
ghost use Rattle.std.specs.Prelude.{◌≡◌, ℕ, ◌^◌, ◌<◌, ◌≤◌, ◌++◌, length, slice_index, OnOk, OnErr};
ghost use Rattle.pull_fans.specs.declared.layout.Layout.TheVariants.{ByProcess};
ghost use Rattle.pull_fans.specs.inside.Layouts.{place_in, width_in, row_in, IsLayoutOf};

use crate::narrow::{push_around, push_narrow};
use pota_base::NoMemory;

/// Where the entries of a row stand.
#[derive(Clone, Copy, Debug)]
pub(crate) enum Layout {
    /// One entry per target, in their order.
    ByTarget,
    /// One entry per process, with 0 at the source: the targets are all other processes in turn.
    ByProcess,
}

impl Layout {
    /// How many entries a row of a fan with these targets has.
    pub(crate) fn width(self, targets: &[u32]) -> usize
        ensures { result ≡ width_in self (length targets.now) }
    {
        match self {
            Layout::ByTarget => targets.len(),
            Layout::ByProcess => targets.len() + 1,
        }
    }

    /// The place in a row where the entry of the target at this index stands.
    pub(crate) fn place(self, targets: &[u32], index: usize) -> usize
        requires { index < length targets.now }
        ensures { result ≡ place_in self targets.now index }
    {
        match self {
            Layout::ByTarget => index,
            Layout::ByProcess => targets[index] as usize,
        }
    }

    /// Appends a row with these numbers of the targets, which fit 16 bits, of a fan from `src`.
    pub(crate) fn push_row(
        self,
        entries: &mut Vec<u16>,
        src: u32,
        row: &[u32],
    ) -> Result<(), NoMemory>
        requires source { self ≡ ByProcess → src ≤ length row.now }
        requires entries { (i : ℕ) → slice_index row.now i < 2 ^ 16 }
        ensures ok { OnOk result
            (entries.new.items ≡ entries.old.items ++ row_in self src row.now) }
        ensures err { OnErr result (entries.new.items ≡ entries.old.items) }
    {
        match self {
            Layout::ByTarget => push_narrow(entries, row),
            Layout::ByProcess => push_around(entries, src as usize, row),
        }
    }
}

/// The layout of a fan: by process, where the pulls go to all processes but the source in turn, and
/// to two or more.
pub(crate) fn layout_of(src: u32, targets: &[u32]) -> Layout
    ensures { IsLayoutOf result src targets.now }
{
    let place = src as usize;
    if targets.len() < 2 || place > targets.len() {
        return Layout::ByTarget;
    }
    for i in 0..targets.len() {
        let other = if i < place { i } else { i + 1 };
        if targets[i] as usize != other {
            return Layout::ByTarget;
        }
    }
    Layout::ByProcess
}
