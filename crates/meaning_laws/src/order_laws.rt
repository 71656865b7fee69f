// Laws of the order of a run, of its consistent cuts and of the paths through them.
ghost use Rattle.std.specs.Prelude.{◌≡◌, ℕ, ◌<◌, List};
ghost use Rattle.run_model.specs.Cut.{Cut, Clocks, IsWithin, min_cut, max_cut, lengths, initial};
ghost use Rattle.run_model.specs.Consistent.{IsOrder, IsEvent, IsConsistent, HappenedBefore};
ghost use Rattle.run_model.specs.Consistent.{IsPath, clock};
ghost use Rattle.run_model.specs.Sublattice.{IsSublattice, IsLeast, IsGreatest, Having};

/// Happened before is a strict partial order (Lamport), and the events of one process stand in it
/// in their order.
pub fn happened_before_is_an_order()
    ensures transitive { (o : Clocks) → IsOrder o → (i a j b k d : ℕ)
        → HappenedBefore o i a j b → HappenedBefore o j b k d → HappenedBefore o i a k d }
    ensures irreflexive { (o : Clocks) (i a : ℕ) → HappenedBefore o i a i a → ⊥ }
    ensures asymmetric { (o : Clocks) → IsOrder o → (i a j b : ℕ)
        → HappenedBefore o i a j b → HappenedBefore o j b i a → ⊥ }
    ensures along_a_process { (o : Clocks) → IsOrder o → (i a b : ℕ) → IsEvent (lengths o) i b
        → 0 < a → a < b → HappenedBefore o i a i b }
{}

/// The consistent cuts are closed under minimum and maximum (Mattern), from the initial cut to the
/// final one.
pub fn consistent_cuts_are_closed()
    ensures minimum { (o : Clocks) → IsOrder o → (c d : Cut) → IsConsistent o c
        → IsConsistent o d → IsConsistent o (min_cut c d) }
    ensures maximum { (o : Clocks) → IsOrder o → (c d : Cut) → IsConsistent o c
        → IsConsistent o d → IsConsistent o (max_cut c d) }
    ensures least { (o : Clocks) → IsLeast (IsConsistent o) (initial o) }
    ensures greatest { (o : Clocks) → IsOrder o → IsGreatest (IsConsistent o) (lengths o) }
    ensures pasts { (o : Clocks) → IsOrder o → (c : Cut) → IsConsistent o c → (i a : ℕ)
        → IsEvent c i a → IsWithin (clock o i a) c }
{}

/// The past of an event is the least consistent cut that has the event.
pub fn past_is_least()
    ensures { (o : Clocks) → IsOrder o → (i a : ℕ) → IsEvent (lengths o) i a
        → IsLeast (Having (IsConsistent o) i a) (clock o i a) }
{}

/// A path leads from each consistent cut to each one that holds it, and only to those.
pub fn paths_rise()
    ensures exists { (o : Clocks) → IsOrder o → (c d : Cut) → IsConsistent o c → IsConsistent o d
        → IsWithin c d → (es : List Cut) × IsPath o c es d }
    ensures rises { (o : Clocks) (c : Cut) (es : List Cut) (d : Cut) → IsPath o c es d
        → IsWithin c d }
{}
