//! Laws of the checks, as contracts of functions that do nothing.
ghost use Rattle.std.specs.Prelude.{◌≡◌, Some, None};
ghost use Rattle.event_log.specs.declared.item.LogCode.TheVariants.{ClockOwn, ClockBack};
ghost use Rattle.event_log.specs.declared.item.LogCode.TheVariants.{ClockDangling, ClockOpen};
ghost use Rattle.event_log.specs.declared.item.LogCode.TheVariants.{ClockLoop, MessageTwice};
ghost use Rattle.event_log.specs.declared.item.LogCode.TheVariants.{ReceiveUnsent, ReceiveEarly};
ghost use Rattle.vector_clock.specs.Events.{no_events};
ghost use Rattle.vector_clock.specs.Faults.{batch_fault, batches_fault};
ghost use Rattle.vector_clock.specs.Laws.{NoFaultIsAnOrder, NoFaultIsARun, FaultlessIsARun};
ghost use Rattle.vector_clock.specs.Laws.{RunHasTheClocks, OnlyNewNamesCount, OneClock, EachHasOne};
ghost use Rattle.vector_clock.specs.Laws.{WrittenStays, WrittenLogStays, FilledFits};
ghost use Rattle.vector_clock.specs.Filled.{filled_batch};
ghost use Rattle.vector_clock.specs.WorkedFills.{goes_round, gone_round, falls_back, fallen_back};
ghost use Rattle.vector_clock.specs.WorkedFills.{turned_round, turned_back};
ghost use Rattle.vector_clock.specs.Worked.{skips_its_place, forgets_an_event, names_no_event};
ghost use Rattle.vector_clock.specs.Worked.{leaves_a_past_out, name_each_other, sends_again};
ghost use Rattle.vector_clock.specs.Worked.{receives_no_message, receives_before_the_send};
ghost use Rattle.vector_clock.specs.Worked.{two_messages, names_the_next_batch};

/// The clocks of batches without a fault are those of an order.
pub fn no_fault_is_an_order()
    ensures { NoFaultIsAnOrder }
{}

/// A log that has no fault once its clocks are filled in is a run. No channel of it has more
/// receipts than sends at a consistent cut.
pub fn no_fault_is_a_run()
    ensures { NoFaultIsARun }
{}

/// The same of events that came batch after batch, none of which had a fault.
pub fn faultless_is_a_run()
    ensures run { FaultlessIsARun }
    ensures clocks { RunHasTheClocks }
{}

/// Only the events that a clock newly names need be looked at: those that the event before on its
/// process doesn't count.
pub fn only_new_names_count()
    ensures { OnlyNewNamesCount }
{}

/// The first faults of small logs, one of each kind, and of logs without one.
pub fn worked_faults()
    ensures own { batch_fault (no_events 1) skips_its_place
        ≡ Some (record { code = ClockOwn; line = 4 }) }
    ensures back { batch_fault (no_events 2) forgets_an_event
        ≡ Some (record { code = ClockBack; line = 5 }) }
    ensures dangling { batch_fault (no_events 2) names_no_event
        ≡ Some (record { code = ClockDangling; line = 3 }) }
    ensures open_past { batch_fault (no_events 3) leaves_a_past_out
        ≡ Some (record { code = ClockOpen; line = 5 }) }
    ensures loop_ { batch_fault (no_events 2) name_each_other
        ≡ Some (record { code = ClockLoop; line = 3 }) }
    ensures twice { batch_fault (no_events 2) sends_again
        ≡ Some (record { code = MessageTwice; line = 4 }) }
    ensures unsent { batch_fault (no_events 2) receives_no_message
        ≡ Some (record { code = ReceiveUnsent; line = 3 }) }
    ensures early { batch_fault (no_events 2) receives_before_the_send
        ≡ Some (record { code = ReceiveEarly; line = 4 }) }
    ensures none { batch_fault (no_events 2) two_messages ≡ None }
    ensures next_batch { batches_fault (no_events 2) names_the_next_batch
        ≡ Some (record { code = ClockDangling; line = 9 }) }
{}

/// An event without a clock has one clock alone, the least that what it looks back on allows.
pub fn each_has_one_clock()
    ensures one { OneClock }
    ensures there { EachHasOne }
{}

/// Clocks that are written stay, and a filled batch may be judged.
pub fn written_clocks_stay()
    ensures batch { WrittenStays }
    ensures log { WrittenLogStays }
    ensures fits { FilledFits }
{}

/// The clocks of small batches: of events that wait for each other in a cycle, of one behind a
/// written clock, and of a receipt above its send in the text.
pub fn worked_clocks()
    ensures round { filled_batch (no_events 2) goes_round ≡ gone_round }
    ensures round_fault { batch_fault (no_events 2) (filled_batch (no_events 2) goes_round)
        ≡ Some (record { code = ClockOwn; line = 3 }) }
    ensures back { filled_batch (no_events 2) falls_back ≡ fallen_back }
    ensures back_fault { batch_fault (no_events 2) (filled_batch (no_events 2) falls_back)
        ≡ Some (record { code = ClockBack; line = 5 }) }
    ensures turned { filled_batch (no_events 2) turned_round ≡ turned_back }
{}
