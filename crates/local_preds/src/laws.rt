//! Laws on local expressions and their pulls. The functions do nothing.
ghost use Rattle.std.specs.Prelude.{◌≡◌, ◌↔◌, ℕ, ℤ, ◌≤◌, Bool, true, List, slice_index, Option};
ghost use Rattle.std.specs.Prelude.{None};
ghost use Rattle.run_model.specs.Cut.{Cut, count};
ghost use Rattle.run_model.specs.Run.{Run};
ghost use Rattle.run_model.specs.Meaning.{Sat};
ghost use Rattle.event_log.specs.States.{StatesView};
ghost use Rattle.pull_system.specs.Pulls.{ClosedUnder};
ghost use Rattle.pull_system.specs.Growth.{PullGrows};
ghost use Rattle.rctl_parts.specs.Exprs.{Expr};
ghost use Rattle.rctl_parts.specs.MadeFor.{is_constant};
ghost use Rattle.rctl_parts.specs.Spelled.{Names, local_formula};
ghost use Rattle.local_preds.specs.Rows.{IsReadable, IsReadableAt, is_true};
ghost use Rattle.local_preds.specs.LocalPulls.{never_pull, constant_pulls_of};
ghost use Rattle.local_preds.specs.LocalRuns.{AreFull, FitsProcess, constant_truth};
ghost use Rattle.local_preds.specs.Laws.{LocalPartsHoldWhereTrue, LocalPullsGrow};

/// At a consistent cut the pull of an expression holds exactly where its formula is true, and the
/// pulls of a constant exactly where the constant is.
///
/// The names are those of the header, and for watches any whose answers stand in the rows.
pub fn local_parts_hold_where_they_are_true()
    ensures local { LocalPartsHoldWhereTrue }
    ensures constant { (r : Run) (names : Names) (lens : List ℕ) (e : Expr) → is_constant e ≡ true
        → (c : Cut) → count c 0 ≤ slice_index lens 0
        → ClosedUnder (constant_pulls_of lens (constant_truth e)) c
        ↔ Sat r (local_formula names None e) c }
{}

/// An expression that is made for a process and its watches can be read there. A constant can be
/// read anywhere, and is the same everywhere.
pub fn made_expressions_can_be_read()
    ensures local { (states : StatesView) (watch_process : List (Option ℕ))
        (watch_rows : List (List Bool)) (p : ℕ) (e : Expr) → FitsProcess states watch_process p e
        → AreFull states watch_process watch_rows p → IsReadableAt states p watch_rows e }
    ensures constant { (variables states : ℕ) (watch_rows : List (List Bool)) (e : Expr)
        → is_constant e ≡ true → IsReadable variables states watch_rows e }
    ensures same { (value : ℕ → ℤ) (watched : ℕ → Bool) (e : Expr) → is_constant e ≡ true
        → is_true value watched e ≡ constant_truth e }
{}

/// When more events come, the pull of an expression asks for no less at each position, past the
/// last one too, and so does the pull that no cut keeps.
pub fn local_pulls_grow()
    ensures local { LocalPullsGrow }
    ensures never { (old lens : List ℕ) → slice_index old 0 ≤ slice_index lens 0
        → PullGrows old lens (never_pull old) (never_pull lens) }
{}
