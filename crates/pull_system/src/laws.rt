//! Laws on systems and rows. The functions do nothing.
ghost use Rattle.std.specs.Prelude.{◌≡◌, ◌↔◌, ℕ, ◌<◌, ◌≤◌, Bool, true, List, ◌++◌, length, sum};
ghost use Rattle.std.specs.Prelude.{slice_index, slice_set};
ghost use Rattle.pull_system.specs.declared.pull.Pull.{Pull};
ghost use Rattle.pull_system.specs.Pulls.{ClosedUnder, first_below};
ghost use Rattle.pota_base.specs.declared.shape.EventId.{EventId};
ghost use Rattle.pota_base.specs.Shape.{HasEvent, row_of};
ghost use Rattle.pull_system.specs.Vector.{IsAtMost, IsVector, IsMinimum, IsMaximum};
ghost use Rattle.pull_system.specs.System.{SystemView, IsSystem, IsClosed, IsLeastFrom};
ghost use Rattle.pull_system.specs.System.{IsBelowLeast};
ghost use Rattle.pull_system.specs.Rows.{RowsView, AreLeastRows, start_of, starts, place_of};
ghost use Rattle.pull_system.specs.Rows.{row_at};
ghost use Rattle.pull_system.specs.Growth.{Grows, Stays, grown_words};
ghost use Rattle.pull_system.specs.Laws.{FinalRowsAreLeast};

/// From each start there is exactly one least closed vector, so a row's is a function of the system
/// and the row.
pub fn least_vectors()
    ensures exists { (system : SystemView) (start : List ℕ) → IsSystem system
        → IsVector system.lens start → (v : List ℕ) × IsLeastFrom system start v }
    ensures unique { (system : SystemView) (start v w : List ℕ) → IsLeastFrom system start v
        → IsLeastFrom system start w → v ≡ w }
{}

/// Closed vectors are closed under componentwise minimum and maximum.
pub fn closed_vectors()
    ensures minimum { (system : SystemView) → IsSystem system → (v w m : List ℕ)
        → IsVector system.lens v → IsVector system.lens w → IsClosed system v → IsClosed system w
        → IsMinimum v w m → IsClosed system m }
    ensures maximum { (system : SystemView) (v w m : List ℕ) → IsClosed system v → IsClosed system w
        → IsMaximum v w m → IsClosed system m }
{}

/// What the start of a row is, and where it stands among the starts of all rows.
pub fn row_starts()
    ensures bottom { (lens : List ℕ) (process : ℕ) → slice_index (start_of lens 0) process ≡ 0 }
    ensures event { (lens : List ℕ) (event : EventId) → HasEvent lens event
        → start_of lens (row_of lens event)
        ≡ slice_set (start_of lens 0) event.process event.position }
    ensures vector { (lens : List ℕ) (row : ℕ) → IsVector lens (start_of lens row) }
    ensures place { (lens : List ℕ) (row process : ℕ) → row ≤ sum lens → process < length lens
        → slice_index (starts lens) (place_of lens row process)
        ≡ slice_index (start_of lens row) process }
{}

/// Closedness under a list of pulls: that of a system is under its pulls, and two lists joined are
/// both.
pub fn closed_lists()
    ensures system { (system : SystemView) (v : List ℕ) → IsClosed system v
        ↔ ClosedUnder system.pulls v }
    ensures left { (ps qs : List Pull) (v : List ℕ) → ClosedUnder (ps ++ qs) v → ClosedUnder ps v }
    ensures right { (ps qs : List Pull) (v : List ℕ) → ClosedUnder (ps ++ qs) v → ClosedUnder qs v }
    ensures both { (ps qs : List Pull) (v : List ℕ) → ClosedUnder ps v → ClosedUnder qs v
        → ClosedUnder (ps ++ qs) v }
{}

/// The least number below a bound that passes a test, or the bound.
pub fn first_numbers()
    ensures within { (test : ℕ → Bool) (n : ℕ) → first_below test n ≤ n }
    ensures passes { (test : ℕ → Bool) (n : ℕ) → first_below test n < n
        → test (first_below test n) ≡ true }
    ensures least { (test : ℕ → Bool) (n k : ℕ) → k < n → test k ≡ true → first_below test n ≤ k }
    ensures grows { (test after : ℕ → Bool) (n m : ℕ) → n ≤ m
        → ((k : ℕ) → k < n → after k ≡ true → test k ≡ true)
        → first_below test n ≤ first_below after m }
{}

/// What grows from one system to a later one of more events, whose pulls ask at least what the
/// earlier ones do.
pub fn growing_systems()
    ensures least { (before after : SystemView) → IsSystem before → Grows before after
        → (start v w : List ℕ) → IsLeastFrom before start v → IsLeastFrom after start w
        → IsAtMost v w }
    ensures rows { (before after : SystemView) → IsSystem before → Grows before after
        → (old : RowsView) → old.lens ≡ before.lens → AreLeastRows before old.words
        → (row : ℕ) → row ≤ sum after.lens
        → IsBelowLeast after (start_of after.lens row)
        (row_at after.lens (grown_words after.lens old) row) }
{}

/// A least closed vector within the lengths stays the least one in each later system that asks for
/// no more where what was there met it. So a row that has one is final where it stands among the
/// grown rows.
pub fn final_rows()
    ensures vector { (before after : SystemView) → IsSystem before → Grows before after
        → Stays before after → (start v : List ℕ) → IsLeastFrom before start v
        → IsAtMost v before.lens → IsLeastFrom after start v }
    ensures row { FinalRowsAreLeast }
{}
