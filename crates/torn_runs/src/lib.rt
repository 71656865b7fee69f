//! Runs that are logged in part, as killed processes leave them: of each process its first events.
//!
//! A cut is logged whole where each event that its events' clocks count is one of its own
//! (`IsLoggedWhole`). There is one greatest such cut (`the_greatest_is_one`). It is the greatest
//! consistent cut of the run among the logged events, so that no greater beginning of the run is
//! logged whole (`the_greatest_is_consistent`); and its events are a run, whose consistent cuts are
//! those of the whole run within it (`beginnings_are_runs`). Each function here is a law and does
//! nothing.
//!
//! Not said: that a log's clocks state what happened.
#![tactic(auto)]

ghost use Rattle.torn_runs.specs.Laws.{LoggedWholeIsConsistent, GreatestIsGreatestCut};
ghost use Rattle.torn_runs.specs.Laws.{ThereIsAGreatest, GreatestIsOne, WholeStays, SameEvents};
ghost use Rattle.torn_runs.specs.Laws.{CutsAreOrders, HasTheEvents, PastsStay, CutsWithinStay};

/// What is logged whole is a consistent cut of the run among the logged events, and the greatest is
/// the greatest.
pub fn the_greatest_is_consistent()
    ensures cuts { LoggedWholeIsConsistent }
    ensures greatest { GreatestIsGreatestCut }
    ensures stays { WholeStays }
{}

/// Whatever is logged, one cut is the greatest that is logged whole.
pub fn the_greatest_is_one()
    ensures there { ThereIsAGreatest }
    ensures one { GreatestIsOne }
{}

/// The events of a consistent cut are a run, with the pasts and the consistent cuts of the whole
/// one within it; and those of a cut that is logged whole are they.
pub fn beginnings_are_runs()
    ensures same { SameEvents }
    ensures order { CutsAreOrders }
    ensures events { HasTheEvents }
    ensures pasts { PastsStay }
    ensures cuts { CutsWithinStay }
{}
