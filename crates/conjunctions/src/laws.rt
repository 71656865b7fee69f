//! Laws on answers and on kept rows. The functions do nothing.
ghost use Rattle.std.specs.Prelude.{◌≡◌, List};
ghost use Rattle.run_model.specs.Class.{IsKeptFor};
ghost use Rattle.trace_growth.specs.Growing.{IsTrace};
ghost use Rattle.slice_workers.specs.Views.{SettledView};
ghost use Rattle.rctl_parts.specs.Pieces.{Piece};
ghost use Rattle.rctl_parts.specs.MadeFor.{AllFit};
ghost use Rattle.part_pulls.specs.declared.observed.Observed.{Observed};
ghost use Rattle.conjunctions.specs.declared.answer.Answer.{Answer};
ghost use Rattle.rctl_parts.specs.Spelled.{disjunction_of};
ghost use Rattle.part_pulls.specs.Observing.{AreFull, Reading, scope_seen, run_seen, names_seen};
ghost use Rattle.part_pulls.specs.Counters.{CountersRise};
ghost use Rattle.conjunctions.specs.Numbering.{all_conjunctions};
ghost use Rattle.conjunctions.specs.Settling.{AreSettled, AreFloors};
ghost use Rattle.part_pulls.specs.Later.{IsLater};
ghost use Rattle.conjunctions.specs.Answering.{IsAnswer};
ghost use Rattle.conjunctions.specs.Laws.{RowsWithACutAreFinal, RowsWithACutStay};

/// What was observed has one answer, whatever rows it began from, by however many workers it was
/// found, and in whichever batches the events came. So it is that of a fresh start, but for the
/// number of batches where that differs.
pub fn one_answer()
    ensures { (seen : Observed) → IsTrace seen.trace.states
        → (ds : List (List Piece)) (a b : Answer)
        → IsAnswer seen ds a → IsAnswer seen ds b → a ≡ b }
{}

/// The rows of conjunctions may be begun from once more was observed, and no counter fell: grown,
/// they lie between the starts and the least rows.
pub fn settled_rows_are_kept()
    ensures { (before after : Observed) (ds : List (List Piece)) (rows : List SettledView)
        → IsTrace before.trace.states → IsTrace after.trace.states → AreFull before
        → IsLater before after → AllFit (scope_seen before) ds → CountersRise after ds
        → AreSettled before (all_conjunctions ds) rows
        → AreFloors after rows (all_conjunctions ds) }
{}

/// A row of a conjunction of atoms that lies within the lengths is the same row after any later
/// batch, and so is least where it stands among the grown rows.
pub fn rows_with_a_cut_are_final()
    ensures same { RowsWithACutStay }
    ensures floor { RowsWithACutAreFinal }
{}

/// Where no counter of the disjuncts falls in what was observed, none that their formula names
/// falls in the run, whatever the watches answer.
pub fn counters_are_kept()
    ensures { (seen : Observed) (reading : Reading) (ds : List (List Piece))
        → IsTrace seen.trace.states → AllFit (scope_seen seen) ds → CountersRise seen ds
        → IsKeptFor (run_seen seen reading) (disjunction_of (names_seen seen reading) ds) }
{}
