// Laws that join vectors with cuts.
ghost use Rattle.std.specs.Prelude.{◌≡◌, ◌↔◌, ◌≤◌, List, ℕ, length};
ghost use Rattle.run_model.specs.Cut.{Cut, Clocks, count, lengths, min_cut, max_cut};
ghost use Rattle.run_model.specs.Cut as cut;
ghost use Rattle.run_model.specs.Consistent.{IsConsistent};
ghost use Rattle.pota_base.specs.declared.shape.EventId.{EventId};
ghost use Rattle.pota_base.specs.Shape.{HasEvent, row_of};
ghost use Rattle.pull_system.specs.Vector as vector;
ghost use Rattle.pull_system.specs.Vector.{IsVector, IsMinimum, IsMaximum};
ghost use Rattle.pull_system.specs.Rows.{start_of};

/// A consistent cut is a vector of its run, and vectors stand in the order of cuts, with their
/// minimum and maximum.
pub fn cuts_are_vectors()
    ensures vector { (o : Clocks) (c : Cut) → IsConsistent o c → IsVector (lengths o) c }
    ensures order { (c d : Cut) → cut.IsWithin c d ↔ vector.IsAtMost c d }
    ensures minimum { (c d : Cut) → length c ≡ length d → IsMinimum c d (min_cut c d) }
    ensures maximum { (c d : Cut) → length c ≡ length d → IsMaximum c d (max_cut c d) }
{}

/// The start of the bottom's row is within each cut, and that of an event's row within the cuts
/// that have the event.
pub fn starts_are_within_cuts()
    ensures bottom { (lens : List ℕ) (c : Cut) → cut.IsWithin (start_of lens 0) c }
    ensures event { (lens : List ℕ) (e : EventId) (c : Cut) → HasEvent lens e
        → cut.IsWithin (start_of lens (row_of lens e)) c ↔ (e.position ≤ count c e.process) }
{}
