//! Laws on orders, their pulls and least vectors. The functions do nothing.
ghost use Rattle.std.specs.Prelude.{◌≡◌, ℕ, ◌<◌, List, ◌++◌, Option, length, slice_index_or};
ghost use Rattle.pota_base.specs.Shape.{HasEvent, row_of};
ghost use Rattle.pota_base.specs.declared.shape.EventId.{EventId};
ghost use Rattle.run_model.specs.Cut.{Cut, Clocks, lengths};
ghost use Rattle.run_model.specs.Consistent.{IsOrder};
ghost use Rattle.run_model.specs.Sublattice.{Having};
ghost use Rattle.run_model.specs.Slice.{IsLeastOf};
ghost use Rattle.causal_order.specs.Growth.{HasGrown};
ghost use Rattle.pull_system.specs.declared.pull.Pull.{Pull};
ghost use Rattle.pull_system.specs.System.{SystemView, no_pull};
ghost use Rattle.pull_system.specs.Rows.{IsLeast};
ghost use Rattle.pull_system.specs.Growth.{PullGrows};
ghost use Rattle.slice_graph.specs.Fitting.{HasOrder, ClosedCuts, IsCutOfVector};
ghost use Rattle.slice_graph.specs.PullLists.{pulls_of_order};
ghost use Rattle.slice_graph.specs.Laws.{RowsOfOneSlice};

/// A system whose pulls begin with those of an order has the order's pulls.
pub fn systems_of_an_order()
    ensures { (o : Clocks) → IsOrder o → (system : SystemView) (rest : List Pull)
        → system.pulls ≡ pulls_of_order o ++ rest → HasOrder o system }
{}

/// Where a system has an order's pulls, the least closed vector of a row is the least consistent
/// closed cut with the row's event if it is within the lengths, and else there is no such cut.
pub fn least_or_none()
    ensures bottom { (o : Clocks) (system : SystemView) → system.lens ≡ lengths o
        → HasOrder o system → (vector : List ℕ) → IsLeast system 0 vector
        → (kept : Option Cut) → IsCutOfVector system.lens vector kept
        → IsLeastOf (ClosedCuts o system) kept }
    ensures event { (o : Clocks) (system : SystemView) → system.lens ≡ lengths o
        → HasOrder o system → (e : EventId) → HasEvent system.lens e
        → (vector : List ℕ) → IsLeast system (row_of system.lens e) vector
        → (kept : Option Cut) → IsCutOfVector system.lens vector kept
        → IsLeastOf (Having (ClosedCuts o system) e.process e.position) kept }
{}

/// When more events come, an order has as many pulls, and each asks for no less.
pub fn order_grows()
    ensures count { (before after : Clocks) → HasGrown before after
        → length (pulls_of_order before) ≡ length (pulls_of_order after) }
    ensures each { (before after : Clocks) → IsOrder after → HasGrown before after → (k : ℕ)
        → k < length (pulls_of_order after)
        → PullGrows (lengths before) (lengths after)
        (slice_index_or (pulls_of_order before) k no_pull)
        (slice_index_or (pulls_of_order after) k no_pull) }
{}

/// The rows of a slice are the least closed vectors of its own pulls, with a cut or without.
pub fn rows_of_one_slice()
    ensures { RowsOfOneSlice }
{}
