//! A run folded to what is named: only the events stay that assign a named variable, send or
//! receive on a named channel, or are of a named process, in the order that happened before gives
//! them, and of the values only those of named variables and processes. What is kept is a run
//! (`kept_runs_are_runs`), its consistent cuts are the kept events of those of the whole run
//! (`cuts_are_kept`), a named variable has the values that it had (`values_are_kept`), and a
//! formula whose names are kept has the same truth in both (`truth_is_kept`). Each function here is
//! a law and does nothing.
//!
//! Not said here: EX, which goes by each event, dropped ones among them.
#![tactic(auto)]

ghost use Rattle.std.specs.Prelude.{true, false};
ghost use Rattle.run_model.specs.Formula.{Truth, Watched, Temporal, Next, Ef};
ghost use Rattle.run_model.specs.Worked.{p, q, x, y, five_events, two_events, x_is, both};
ghost use Rattle.run_model.specs.Worked.{HasVerdict};
ghost use Rattle.kept_runs.specs.Kept.{kept_trace};
ghost use Rattle.kept_runs.specs.Laws.{KeptRunsAreRuns, ReceiptsKeepTheirSends};
ghost use Rattle.kept_runs.specs.Laws.{HappenedBeforeIsKept, KeptEventsOfACutAreACut};
ghost use Rattle.kept_runs.specs.Laws.{EachCutIsThatOfSome, NamesOfAFormulaWillDo, TruthIsKept};
ghost use Rattle.kept_runs.specs.Laws.{PathsAreKept, EachPathIsThatOfSome};
ghost use Rattle.kept_runs.specs.Laws.{NamedVariablesGetTheirNumbers, ValuesAreKept};
ghost use Rattle.kept_runs.specs.Laws.{TruthAtTheStartIsKept, FamiliesAreKept};
ghost use Rattle.kept_runs.specs.Laws.{RegularFormulasStayRegular, LeastCutsAreKept};
ghost use Rattle.kept_runs.specs.Laws.{GreatestCutsAreKept, LeastCutsComeFromLeastCuts};
ghost use Rattle.kept_runs.specs.Laws.{LeastCutsAreTheLeastWithTheirKeptEvents};
ghost use Rattle.kept_runs.specs.Worked.{only_variable, only_process, OnlyX, YAndAnswers};
ghost use Rattle.kept_runs.specs.Worked.{Questions, WholeP, OnlyTheSecond};

/// What is kept of a run is a run, and its events stand in the order in which they stood.
pub fn kept_runs_are_runs()
    ensures runs { KeptRunsAreRuns }
    ensures messages { ReceiptsKeepTheirSends }
    ensures order { HappenedBeforeIsKept }
{}

/// The consistent cuts of a kept run are the kept events of the consistent cuts of the whole one,
/// and so are its paths.
pub fn cuts_are_kept()
    ensures kept { KeptEventsOfACutAreACut }
    ensures each { EachCutIsThatOfSome }
    ensures paths { PathsAreKept }
    ensures each_path { EachPathIsThatOfSome }
{}

/// A named variable has its values, under the number that it gets.
pub fn values_are_kept()
    ensures numbers { NamedVariablesGetTheirNumbers }
    ensures values { ValuesAreKept }
{}

/// A formula whose names are kept, with no EX, is true in the kept run where it is in
/// the whole one, and the least and greatest cuts where it is true are kept.
pub fn truth_is_kept()
    ensures names { NamesOfAFormulaWillDo }
    ensures truth { TruthIsKept }
    ensures start { TruthAtTheStartIsKept }
    ensures families { FamiliesAreKept }
    ensures regular { RegularFormulasStayRegular }
    ensures least { LeastCutsAreKept }
    ensures greatest { GreatestCutsAreKept }
    ensures from_least { LeastCutsComeFromLeastCuts }
    ensures way_back { LeastCutsAreTheLeastWithTheirKeptEvents }
{}

/// What is kept of five events, by four sets of names.
pub fn five_events_kept()
    ensures only_x { OnlyX }
    ensures y_and_answers { YAndAnswers }
    ensures questions { Questions }
    ensures whole_p { WholeP }
{}

/// What is kept of two variables of one process, where only the second is named.
pub fn second_variable_kept()
    ensures only_the_second { OnlyTheSecond }
{}

/// Why EX is left out: with the first event of P dropped, P has no next one.
pub fn next_goes_by_dropped_events()
    ensures whole { HasVerdict two_events (Next p (Truth true)) true }
    ensures kept { HasVerdict (kept_trace two_events (only_variable q y)) (Next p (Truth true))
        false }
{}

/// Why the process of a watch is kept as a whole: `EF (P@stable & P.x = 2)` needs the third event
/// of P, which leaves x as it is.
pub fn watches_go_by_each_event()
    ensures whole { HasVerdict five_events (Temporal Ef (both (Watched p p) (x_is 2))) true }
    ensures variable { HasVerdict (kept_trace five_events (only_variable p x))
        (Temporal Ef (both (Watched p p) (x_is 2))) false }
    ensures process { HasVerdict (kept_trace five_events (only_process p))
        (Temporal Ef (both (Watched p p) (x_is 2))) true }
{}
