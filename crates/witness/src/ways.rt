//! The ways of the witnesses: through the consistent cuts within a goal, and through a slice.

ghost use Rattle.std.specs.Prelude.{◌≡◌, ◌+◌, ◌<◌, ◌≤◌, ◌↔◌, length, IsTrue};
ghost use Rattle.run_model.specs.Cut.{IsWithin, count, with_next};
ghost use Rattle.run_model.specs.Consistent.{IsConsistent};
ghost use Rattle.run_model.specs.Slice.{Cuts};
ghost use Rattle.pota_base.specs.Limits.{most_events, most_processes};
ghost use Rattle.slice_graph.specs.Views.{slice_of};
ghost use Rattle.witness.specs.inside.Twins.{IsOperand};

use crate::walk::Way;
use causal_order::Order;
use cut_lattice::Cut;
use slice_graph::Slice;

/// The consistent cuts within a goal.
#[derive(Clone, Copy)]
pub struct ToGoal<'a> {
    pub order: &'a Order,
    pub goal: &'a Cut,
}

impl Way for ToGoal<'_> {
    ghost holds = { λ w c. IsConsistent w.order.now c × IsWithin c w.goal.now };

    ghost ready = { λ w. length w.goal.now ≡ length w.order.now };

    fn goes_on(&self, at: &Cut, process: u32) -> bool {
        if at.get(process) >= self.goal.get(process) {
            return false;
        }
        self.order.can_take(at, process)
    }
}

/// The cuts of a slice.
#[derive(Clone, Copy)]
pub struct InSlice<'a> {
    pub order: &'a Order,
    pub slice: &'a Slice,
}

// How many events of a process the cut has with another one's next event.
fn count_with_next(at: &Cut, process: u32, other: u32) -> u32
    requires process { process < length at.now }
    requires other { other < length at.now }
    requires room { count at.now process < most_events }
    ensures { result ≡ count (with_next at.now process) other }
{
    if other == process {
        return at.get(process) + 1;
    }
    at.get(other)
}

// Whether each count is at most that of the cut with the process's next event.
fn is_within_next(counts: &[u32], at: &Cut, process: u32) -> bool
    requires width { length counts.now ≡ length at.now }
    requires few { length counts.now ≤ most_processes }
    requires process { process < length at.now }
    requires room { count at.now process < most_events }
    ensures { IsTrue result ↔ IsWithin counts.now (with_next at.now process) }
{
    for other in 0..counts.len() {
        if counts[other] > count_with_next(at, process, other as u32) {
            return false;
        }
    }
    true
}

impl Way for InSlice<'_> {
    ghost holds = { λ w c. Cuts w.order.now (slice_of w.slice.now) c };

    ghost ready = { λ w. IsOperand w.order.now w.slice.now };

    // The row of the next event is the only one to look at: the maximum of the cut and the row is
    // the cut with that event.
    fn goes_on(&self, at: &Cut, process: u32) -> bool {
        let position = at.get(process);
        if position >= self.slice.shape().len_of(process) {
            return false;
        }
        is_within_next(self.slice.words(process, position + 1), at, process)
    }
}
