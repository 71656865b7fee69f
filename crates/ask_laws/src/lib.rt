//! Laws of `ask_top::ask`, as contracts of functions that do nothing: where the line of a question
//! says `ok`, by its words and the run of the log that was read.
//!
//! Exactly where no consistent cut satisfies the formula (`never_holds_where_no_cut_satisfies`),
//! some does (`can_holds_where_some_cut_satisfies`), each does
//! (`always_holds_where_each_cut_satisfies`), each path meets it
//! (`surely_holds_where_each_path_meets`), the final cut satisfies it
//! (`at_end_holds_where_the_final_cut_satisfies`), or the initial cut does, for a formula without
//! words (`plain_holds_where_the_initial_cut_satisfies`). Who reads the document by the protocol
//! sees the version, the plan and one result for each question, in order, with its number and its
//! text, and nothing else (`each_question_has_its_line`).
//!
//! These are of questions that are asked of the log. The line of a question over processes says
//! `ok` exactly where the question with the names of processes in it holds for each two different
//! ones, or each one, of which the log has all names that it then has
//! (`over_holds_where_it_holds_for_each`).
//!
//! Not said: that a call is answered, and what stands below the line of a question: `ask_top` and
//! `ask_text` say so.
#![tactic(auto)]

ghost use Rattle.ask_laws.specs.Laws.{NeverHoldsWhereNoCutSatisfies};
ghost use Rattle.ask_laws.specs.Laws.{CanHoldsWhereSomeCutSatisfies};
ghost use Rattle.ask_laws.specs.Laws.{AlwaysHoldsWhereEachCutSatisfies};
ghost use Rattle.ask_laws.specs.Laws.{SurelyHoldsWhereEachPathMeets};
ghost use Rattle.ask_laws.specs.Laws.{AtEndHoldsWhereTheFinalCutSatisfies};
ghost use Rattle.ask_laws.specs.Laws.{PlainHoldsWhereTheInitialCutSatisfies};
ghost use Rattle.ask_laws.specs.Laws.{OverHoldsWhereItHoldsForEach};
ghost use Rattle.ask_laws.specs.Laws.{EachQuestionHasItsLine, ItSaysOkOrNotOk, ItSaysNotBoth};

/// The line of `never F` says `ok` exactly where no consistent cut of the log's run satisfies F.
pub fn never_holds_where_no_cut_satisfies()
    ensures { NeverHoldsWhereNoCutSatisfies }
{}

/// The line of `can F` says `ok` exactly where some consistent cut of the log's run satisfies F.
pub fn can_holds_where_some_cut_satisfies()
    ensures { CanHoldsWhereSomeCutSatisfies }
{}

/// The line of `always F` says `ok` exactly where each consistent cut of the log's run satisfies F.
pub fn always_holds_where_each_cut_satisfies()
    ensures { AlwaysHoldsWhereEachCutSatisfies }
{}

/// The line of `surely F` says `ok` exactly where each path of consistent cuts, from the initial to
/// the final one, has a cut that satisfies F.
pub fn surely_holds_where_each_path_meets()
    ensures { SurelyHoldsWhereEachPathMeets }
{}

/// The line of `at end F` says `ok` exactly where the final cut of the log's run satisfies F.
pub fn at_end_holds_where_the_final_cut_satisfies()
    ensures { AtEndHoldsWhereTheFinalCutSatisfies }
{}

/// The line of a formula without words says `ok` exactly where the initial cut satisfies it.
pub fn plain_holds_where_the_initial_cut_satisfies()
    ensures { PlainHoldsWhereTheInitialCutSatisfies }
{}

/// The line of `for P Q: ..` says `ok` exactly where the question, with the names of two different
/// processes for P and Q, holds of the log's run for each two of which the log has all names that
/// the question then has; that of `for P: ..` where it does for each one.
pub fn over_holds_where_it_holds_for_each()
    ensures { OverHoldsWhereItHoldsForEach }
{}

/// A reader of the protocol sees the version, the plan of so many tests as there are questions, and
/// the result of each, in order, with its number and its text, and nothing else. A result says `ok`
/// or `not ok`, and not both.
pub fn each_question_has_its_line()
    ensures lines { EachQuestionHasItsLine }
    ensures either { ItSaysOkOrNotOk }
    ensures not_both { ItSaysNotBoth }
{}
