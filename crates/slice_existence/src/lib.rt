//! Each closed set of cuts whose members can be told has a slice, and so have the sets that EF, AG
//! and EG make of it: a run has finitely many cuts, and the minimum of those of the set is its
//! least one. Each function here is a law and does nothing.
//!
//! Not said: how a slice is found. `run_model` says what a slice is, and `slice_graph` and
//! `temporal_slice` make it.
#![tactic(auto)]

ghost use Rattle.std.specs.Prelude.{◌⊎◌};
ghost use Rattle.run_model.specs.Cut.{Cut, Clocks};
ghost use Rattle.run_model.specs.Consistent.{IsOrder, IsConsistent};
ghost use Rattle.run_model.specs.Sublattice.{IsSublattice};
ghost use Rattle.run_model.specs.Slice.{Slice, StandsFor};
ghost use Rattle.run_model.specs.Operators.{EfHolds, AgHolds, EgHolds};

use meaning_laws::sublattice_laws::SetOfCuts;

/// A closed set has a slice, where each consistent cut is in it or is not.
pub fn a_closed_set_has_a_slice<A: SetOfCuts>()
    ensures { (o : Clocks) → IsSublattice o A.has
        → ((c : Cut) → IsConsistent o c → A.has c ⊎ (A.has c → ⊥))
        → (s : Slice) × StandsFor o s A.has }
{}

/// So have the cuts at which EF, AG and EG of it are true.
pub fn operators_have_slices<A: SetOfCuts>()
    ensures some_time { (o : Clocks) → IsOrder o → IsSublattice o A.has
        → ((c : Cut) → IsConsistent o c → A.has c ⊎ (A.has c → ⊥))
        → (s : Slice) × StandsFor o s (λ c. IsConsistent o c × EfHolds o A.has c) }
    ensures each_time { (o : Clocks) → IsOrder o → IsSublattice o A.has
        → ((c : Cut) → IsConsistent o c → A.has c ⊎ (A.has c → ⊥))
        → (s : Slice) × StandsFor o s (λ c. IsConsistent o c × AgHolds o A.has c) }
    ensures staying { (o : Clocks) → IsOrder o → IsSublattice o A.has
        → ((c : Cut) → IsConsistent o c → A.has c ⊎ (A.has c → ⊥))
        → (s : Slice) × StandsFor o s (λ c. IsConsistent o c × EgHolds o A.has c) }
{}
