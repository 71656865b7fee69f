//! Laws on batches and vector clocks, as contracts of functions that do nothing.
//!
//! The clock of an event is defined in a whole log, and filled in with its batch. That is one
//! thing: a clock stays as batches come (`earlier_clocks_stay`), and filling goes batch by batch
//! (`filling_goes_batch_by_batch`).
//!
//! In how many batches events came is forgotten where none had a fault: they have none as one batch
//! (`batches_may_be_joined`), and clocks that were left out are filled in the same
//! (`joined_batches_fill_the_same`). Batches with a fault may have other clocks as one
//! (`a_send_may_come_too_late`).
//!
//! Not said: how clocks are filled in, and that the code fills in these. `vector_clock` says so.
#![tactic(auto)]

ghost use Rattle.std.specs.Prelude.{◌≡◌, [], ◌∷◌, map, Some};
ghost use Rattle.event_log.specs.declared.item.LogCode.TheVariants.{ReceiveUnsent};
ghost use Rattle.vector_clock.specs.Events.{no_events};
ghost use Rattle.vector_clock.specs.Faults.{batches_fault};
ghost use Rattle.vector_clock.specs.Filled.{filled_batch, filled_batches};
ghost use Rattle.clock_laws.specs.Joined.{as_one};
ghost use Rattle.clock_laws.specs.Laws.{EarlierClocksStay, ClocksBehindAreClocksIn, OneBatchMore};
ghost use Rattle.clock_laws.specs.Laws.{FilledBatchesHaveTheirClocks, JoinedBatchesHaveNoFault};
ghost use Rattle.clock_laws.specs.Laws.{FaultlessEventsMayComeAsOne, JoinedBatchesFillTheSame};
ghost use Rattle.clock_laws.specs.Laws.{FilledAsOneTheyHaveNoFault};
ghost use Rattle.clock_laws.specs.Laws.{FilledAsOneTheyAreTheSameEvents};
ghost use Rattle.clock_laws.specs.Worked.{receipt, send, sent_too_late};

/// The clock of an event is settled once its batch is closed: no later batch changes it.
pub fn earlier_clocks_stay()
    ensures { EarlierClocksStay }
{}

/// A batch is filled behind the filled events before it, and that gives each event of the log its
/// clock.
pub fn filling_goes_batch_by_batch()
    ensures behind { ClocksBehindAreClocksIn }
    ensures more { OneBatchMore }
    ensures log { FilledBatchesHaveTheirClocks }
{}

/// Filled batches without a fault have none as one batch. The converse is false: a clock may name
/// an event of a later batch, and a receipt may have its send there.
pub fn batches_may_be_joined()
    ensures fault { JoinedBatchesHaveNoFault }
    ensures events { FaultlessEventsMayComeAsOne }
{}

/// Batches that have no fault once they are filled may be joined before that, too.
pub fn joined_batches_fill_the_same()
    ensures batch { JoinedBatchesFillTheSame }
    ensures fault { FilledAsOneTheyHaveNoFault }
    ensures events { FilledAsOneTheyAreTheSameEvents }
{}

/// Where a receipt has its send in the batch that follows, that is a fault, and as one batch the
/// receipt has another clock.
pub fn a_send_may_come_too_late()
    ensures fault { batches_fault (no_events 2) (filled_batches (no_events 2) sent_too_late)
        ≡ Some (record { code = ReceiveUnsent; line = 3 }) }
    ensures apart { filled_batches (no_events 2) sent_too_late
        ≡ (record receipt { clock = 0 ∷ 1 ∷ [] } ∷ [])
        ∷ (record send { clock = 1 ∷ 0 ∷ [] } ∷ []) ∷ [] }
    ensures joined { filled_batch (no_events 2) (as_one sent_too_late)
        ≡ record receipt { clock = 1 ∷ 1 ∷ [] } ∷ record send { clock = 1 ∷ 0 ∷ [] } ∷ [] }
{}
