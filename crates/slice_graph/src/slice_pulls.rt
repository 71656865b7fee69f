//! The pulls of a slice.
ghost use Rattle.std.specs.Prelude.{◌≡◌, ℕ, ◌*◌, ◌<◌, ◌↔◌, length, flat_map, All, IfOk};
ghost use Rattle.std.specs.List.{range_with_len};
ghost use Rattle.run_model.specs.Cut.{Cut, Clocks};
ghost use Rattle.run_model.specs.Slice.{Cuts};
ghost use Rattle.pull_system.specs.System.{IsPull};
ghost use Rattle.pull_system.specs.Pulls.{ClosedUnder};
ghost use Rattle.pull_fans.specs.Fans.{pulls_of_fan, pulls_of_fans};
ghost use Rattle.slice_graph.specs.Views.{IsCut, slice_of};
ghost use Rattle.slice_graph.specs.Fitting.{FitsOrder};
ghost use Rattle.slice_graph.specs.PullLists.{slice_pull, pulls_of_slice};

use crate::slice::Slice;
use pota_base::{List, NoMemory};
use pull_fans::{Fan, pulls_of};
use pull_system::Pull;
use std::alloc::Global;

impl Slice {
    /// The pulls of the slice: for each source and each target, the same process too, what the rows
    /// of the source's events have of the target, and one more than the target's length where there
    /// is no row.
    pub fn pulls(&self, alloc: Global) -> Result<List<Pull>, NoMemory>
        ensures list { IfOk result (λ pulls. pulls ≡ pulls_of_slice self.now) }
        ensures count { IfOk result (λ pulls. length pulls
            ≡ length self.now.lens * length self.now.lens) }
        ensures pulls { (o : Clocks) → FitsOrder o self.now
            → IfOk result (λ pulls. All (IsPull self.now.lens) pulls) }
        ensures closed { (o : Clocks) → FitsOrder o self.now → (c : Cut) → IsCut self.now.lens c
            → IfOk result (λ pulls. ClosedUnder pulls c ↔ Cuts o (slice_of self.now) c) }
    {
        let fans = self.fans(alloc)?;
        pulls_of(alloc, fans.as_slice())
    }

    /// The pulls of the slice side by side: for each source a fan to all processes, itself too.
    pub fn fans(&self, alloc: Global) -> Result<List<Fan>, NoMemory>
        ensures list { IfOk result (λ fans. pulls_of_fans fans ≡ pulls_of_slice self.now) }
        ensures count { IfOk result (λ fans. length (pulls_of_fans fans)
            ≡ length self.now.lens * length self.now.lens) }
        ensures pulls { (o : Clocks) → FitsOrder o self.now
            → IfOk result (λ fans. All (IsPull self.now.lens) (pulls_of_fans fans)) }
        ensures closed { (o : Clocks) → FitsOrder o self.now → (c : Cut) → IsCut self.now.lens c
            → IfOk result (λ fans. ClosedUnder (pulls_of_fans fans) c
            ↔ Cuts o (slice_of self.now) c) }
    {
        let mut fans = List::new(alloc);
        for source in 0..self.shape().procs() {
            fans.push(slice_fan(alloc, self, source)?)?;
        }
        Ok(fans)
    }
}

/// The pulls from one process.
fn slice_fan(alloc: Global, slice: &Slice, source: u32) -> Result<Fan, NoMemory>
    requires { source < length slice.now.lens }
    ensures { IfOk result (λ fan. pulls_of_fan fan
        ≡ flat_map (slice_pull slice.now source) (range_with_len 0 (length slice.now.lens))) }
{
    let shape = slice.shape();
    let len = shape.len_of(source);
    let targets = all_processes(alloc, shape.procs())?;
    let mut fan = Fan::new(alloc, source, targets, len as usize + 2)?;
    fan.push_row(slice.words(source, 0))?;
    fan.push_rows(slice.words_of_events(source), len as usize)?;
    fan.push_row(slice.absent())?;
    Ok(fan)
}

/// The numbers of all processes.
pub fn all_processes(alloc: Global, procs: u32) -> Result<List<u32>, NoMemory>
    ensures { IfOk result (λ all. all ≡ range_with_len 0 procs) }
{
    let mut all = List::with_capacity(alloc, procs as usize)?;
    for process in 0..procs {
        all.push(process)?;
    }
    Ok(all)
}
