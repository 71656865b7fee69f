ghost use Rattle.std.specs.Prelude.{◌≤◌};
ghost use Rattle.pota_base.specs.Limits.{most_workers};

use std::alloc::Global;

/// By what means a formula is answered: its conjunctions are settled by these.
#[derive(Drop)]
pub struct Means<'a, R, G> {
    /// What starts threads.
    pub rt: &'a R,
    pub alloc: Global,
    /// How many workers settle the rows of one conjunction, from 1 to 16.
    pub workers: u32,
    /// What each of them passes before it settles a row.
    pub gate: &'a G,
    ghost some: { 1 ≤ workers },
    ghost few: { workers ≤ most_workers },
}
