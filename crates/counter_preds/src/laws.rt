//! Laws on counters. The functions do nothing.
ghost use Rattle.std.specs.Prelude.{◌≡◌, List, [], ◌++◌, All, None};
ghost use Rattle.run_model.specs.Run.{Watches};
ghost use Rattle.run_model.specs.Class.{NeverFalls};
ghost use Rattle.event_log.specs.declared.log.Event.{Event};
ghost use Rattle.event_log.specs.declared.log.Header.{Header};
ghost use Rattle.event_log.specs.States.{StatesView, AreWhole, opened};
ghost use Rattle.channel_preds.specs.Truth.{run_in};
ghost use Rattle.counter_preds.specs.declared.values.Variable.{Variable};
ghost use Rattle.counter_preds.specs.Counters.{IsVariable, IsCounter};
ghost use Rattle.counter_preds.specs.Falls.{behind_batch, fall_fault, without_clocks};
ghost use Rattle.counter_preds.specs.Truth.{process_of, variable_of};
ghost use Rattle.counter_preds.specs.Laws.{AtLeastHoldsWhereTrue, AtLeastPullsGrow};
ghost use Rattle.counter_preds.specs.Laws.{AtMostHoldsWhereTrue, AtMostPullsGrow};

/// At a consistent cut the pulls of a bound hold exactly where the bound is true.
pub fn differences_hold_where_they_are_true()
    ensures at_most { AtMostHoldsWhereTrue }
    ensures at_least { AtLeastHoldsWhereTrue }
{}

/// When more events come, and the counters still don't fall, a pull of a difference asks for no
/// less at each position, past the last one too.
pub fn difference_pulls_grow()
    ensures at_most { AtMostPullsGrow }
    ensures at_least { AtLeastPullsGrow }
{}

/// A counter of the states never falls in their run.
pub fn counters_never_fall()
    ensures { (states : StatesView) (watches : Watches) (x : Variable) → AreWhole states
        → IsVariable states x → IsCounter states x
        → NeverFalls (run_in states watches) (process_of states x) (variable_of states x) }
{}

/// Where there are no events yet, each variable is a counter: it has one value.
pub fn a_header_has_counters()
    ensures { (header : Header) (x : Variable) → IsCounter (opened header) x }
{}

/// Counters stay counters behind a batch in which none of them falls.
pub fn counters_stay()
    ensures { (states : StatesView) (counters : List Variable) (batch : List Event)
        → AreWhole states → All (IsVariable states) counters → All (IsCounter states) counters
        → fall_fault states counters batch ≡ None
        → All (IsCounter (behind_batch states batch)) counters }
{}

/// Whether a counter falls, and where, goes by processes, lines and assignments. So a batch may be
/// judged before its clocks are filled in or after.
pub fn clocks_make_no_fall()
    ensures { (states : StatesView) (counters : List Variable) (batch other : List Event)
        → without_clocks other ≡ without_clocks batch
        → fall_fault states counters other ≡ fall_fault states counters batch }
{}

/// Without counters no batch has a fall.
pub fn without_counters_nothing_falls()
    ensures { (states : StatesView) (batch : List Event) → fall_fault states [] batch ≡ None }
{}

/// Batches in none of which a counter falls, each behind those before it, have no fall as one.
pub fn batches_without_a_fall_may_be_joined()
    ensures { (states : StatesView) (counters : List Variable) (batch more : List Event)
        → fall_fault states counters batch ≡ None
        → fall_fault (behind_batch states batch) counters more ≡ None
        → fall_fault states counters (batch ++ more) ≡ None }
{}
