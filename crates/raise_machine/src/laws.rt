ghost use Rattle.std.specs.Prelude.{◌≡◌, ℕ, ◌≤◌, List, sum};
ghost use Rattle.pull_system.specs.Vector.{IsAtMost};
ghost use Rattle.pull_system.specs.System.{SystemView, IsSystem, IsClosed};
ghost use Rattle.pull_system.specs.Rows.{RowsView, AreLeastRows, IsLeast};
ghost use Rattle.pull_system.specs.Growth.{Grows, grown_words};
ghost use Rattle.raise_machine.specs.declared.step.Step.{Step};
ghost use Rattle.raise_machine.specs.Bounds.{AreBounds};
ghost use Rattle.raise_machine.specs.Machine.{words_at, IsSeen};
ghost use Rattle.raise_machine.specs.Laws.{ClosedRowsStay};

/// Over every list of steps: no word falls and none passes the least; and a row that is seen
/// closed, each word at a moment of its own, is the least closed vector, and the words are that
/// from the latest of these moments on. It does nothing.
pub fn runs()
    ensures rises { (system : SystemView) (words : List ℕ) (steps : List Step) (m n : ℕ) → m ≤ n
        → IsAtMost (words_at system words steps m) (words_at system words steps n) }
    ensures bounds { (system : SystemView) (words : List ℕ) (steps : List Step) (n : ℕ)
        → IsSystem system → AreBounds system words
        → AreBounds system (words_at system words steps n) }
    ensures settles { (system : SystemView) (words : List ℕ) (steps : List Step) (row : ℕ)
        (moments : ℕ → ℕ) (v : List ℕ) → row ≤ sum system.lens → IsSystem system
        → AreBounds system words → IsSeen system words steps row moments v → IsClosed system v
        → IsLeast system row v }
    ensures stays { ClosedRowsStay }
{}

/// A table may begin from the rows of an earlier system that has grown into this one: its least
/// rows, grown, lie between the starts and the least rows of the later system. It does nothing.
pub fn grown_rows()
    ensures { (before after : SystemView) → IsSystem before → Grows before after
        → (old : RowsView) → old.lens ≡ before.lens → AreLeastRows before old.words
        → AreBounds after (grown_words after.lens old) }
{}
