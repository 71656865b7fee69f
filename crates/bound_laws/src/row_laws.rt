// Laws of the words of rows.
ghost use Rattle.std.specs.Prelude.{◌≡◌, ℕ, ◌<◌, ◌≤◌, nat_le, true, List, length};
ghost use Rattle.pota_base.specs.declared.shape.EventId.{EventId};
ghost use Rattle.pota_base.specs.Shape.{HasEvent, row_of};
ghost use Rattle.pull_system.specs.Vector.{IsAtMost};
ghost use Rattle.pull_system.specs.System.{SystemView};
ghost use Rattle.pull_system.specs.Rows.{IsLeast, start_of, starts, place_of};
ghost use Rattle.raise_machine.specs.Bounds.{AreBounds, IsBound, has_start, word_at};

/// A table may begin from the starts of its rows.
pub fn starts_are_bounds()
    ensures { (system : SystemView) → AreBounds system (starts system.lens) }
{}

/// A row may lend its words to each row whose words are at or above its start: none of them passes
/// the least of that row. For an event's row that is where the words have the event, and each row
/// may borrow from the bottom's.
pub fn rows_that_may_lend()
    ensures least { (system : SystemView) (row other : ℕ) (v w : List ℕ) → IsLeast system row v
        → IsLeast system other w → IsAtMost (start_of system.lens other) v → IsAtMost w v }
    ensures lends { (system : SystemView) (words : List ℕ) → AreBounds system words
        → (row other process : ℕ) → process < length system.lens
        → has_start system.lens words row other ≡ true
        → IsBound system (place_of system.lens row process)
        (word_at system.lens words other process) }
    ensures bottom { (lens words : List ℕ) (row : ℕ) → has_start lens words row 0 ≡ true }
    ensures event { (lens words : List ℕ) (row : ℕ) (e : EventId) → HasEvent lens e
        → has_start lens words row (row_of lens e)
        ≡ nat_le e.position (word_at lens words row e.process) }
{}
