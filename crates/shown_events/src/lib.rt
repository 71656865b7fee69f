//! Laws of the events that a formula is about, which views of a report show: a run that is folded
//! to the formula's names keeps exactly these, and no other event changes what a formula without
//! `EX` says.
//!
//! The tokens of a formula's text name a variable, a channel or a watched process exactly where the
//! formula does, and have an `EX` with a name behind it wherever it has one
//! (`what_is_named_stands_in_the_text`). A formula is about an event exactly where `kept_runs`
//! keeps it by the formula's names (`what_a_formula_is_about_is_kept`). So a formula without `EX`
//! has one truth at consistent cuts that differ only by other events
//! (`other_events_change_nothing`), in the run of each log that is read without a fault
//! (`runs_of_logs_are_ordered`). Each function here is a law and does nothing.
//!
//! Not said: which of these events a view leaves out where they are many; nor that a formula has an
//! `EX` wherever its text seems to have one, as in `E[P.x = Q.EX U P.x = 1]`, of which views show
//! each event.
#![tactic(auto)]

ghost use Rattle.shown_events.specs.Laws.{TokensNameAsTheFormula, EachNextStandsInTheText};
ghost use Rattle.shown_events.specs.Laws.{AboutIsKept, TruthIsThatOfTheEvents};
ghost use Rattle.shown_events.specs.Laws.{OtherEventsChangeNothing, RunsOfLogsAreOrdered};

/// Among the tokens of a text that is read as a formula stand the variables, the channels and the
/// watched processes that the formula names, and no others, and each `EX` that it has.
pub fn what_is_named_stands_in_the_text()
    ensures names { TokensNameAsTheFormula }
    ensures next { EachNextStandsInTheText }
{}

/// A formula is about an event exactly where the run that is folded to what the formula names keeps
/// the event.
pub fn what_a_formula_is_about_is_kept()
    ensures { AboutIsKept }
{}

/// At a consistent cut a formula without `EX` has the truth that it has in the folded run, at the
/// events of the cut that it is about; so events that it is not about change nothing.
pub fn other_events_change_nothing()
    ensures truth { TruthIsThatOfTheEvents }
    ensures same { OtherEventsChangeNothing }
{}

/// The run of a log that is read without a fault has what the law above takes of a run.
pub fn runs_of_logs_are_ordered()
    ensures { RunsOfLogsAreOrdered }
{}
