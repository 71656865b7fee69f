//! A log folded to what is named, as one batch: only the events stay that assign a named variable,
//! send or receive on a named channel, or are of a named process, with clocks that count kept
//! events alone. An event that is kept for its assignments is internal where its channel isn't
//! named. Of the variables those stay that are named or of a named process, by numbers of their
//! own, with their opening values and the assignments of kept events.
//!
//! `keep` gives that log. Its run is the kept run of the log, and it has no fault where the log has
//! none (`kept_logs_have_kept_runs`); so a formula whose names are kept, with no EX, is as true
//! there as on the log (`formulas_stay_as_true`). It has a text with each clock written, and may be
//! folded again (`again`).
//!
//! `unknown_word` gives the first word behind a `--keep` that names what a log does not have.
//!
//! Not said: EX, which goes by each event; the lines of kept events, since each keeps the line of
//! the log that it came from, and the text of a log goes by none; and how long a call takes.
#![tactic(auto)]

ghost use Rattle.kept_log.specs.Laws.{RunIsKept, EventsKeepTheirPlaces, NoFaultArises};
ghost use Rattle.kept_log.specs.Laws.{AssignmentsFindTheirVariables, FormulasStayAsTrue};
ghost use Rattle.kept_log.specs.Laws.{LeastCutsStay, GreatestCutsStay};

mod counts;
mod keeping;
mod names;
mod numbers;
mod unknown;
mod variables;

pub use keeping::keep;
pub use unknown::unknown_word;

/// The run of a kept log is the kept run of the log, and it has no fault where the log has none.
pub fn kept_logs_have_kept_runs()
    ensures run { RunIsKept }
    ensures places { EventsKeepTheirPlaces }
    ensures assignments { AssignmentsFindTheirVariables }
    ensures faults { NoFaultArises }
{}

/// A formula whose names are kept, with no EX, is as true in a kept log as in the log, cut by cut.
pub fn formulas_stay_as_true()
    ensures truth { FormulasStayAsTrue }
    ensures least { LeastCutsStay }
    ensures greatest { GreatestCutsStay }
{}
