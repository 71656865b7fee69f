// Worked examples as laws: the verdicts, printed slices and canonical witnesses of formulas on the
// small logs.
ghost use Rattle.std.specs.Prelude.{◌↔◌, true, false, pos, [], ◌∷◌, Contains, IsFalse};
ghost use Rattle.run_model.specs.Cut.{Cut};
ghost use Rattle.run_model.specs.Run.{clocks_of};
ghost use Rattle.run_model.specs.Consistent.{IsConsistent};
ghost use Rattle.run_model.specs.Meaning.{IsRun};
ghost use Rattle.run_model.specs.Class.{is_conjunctive, is_disjunctive, IsOfClass};
ghost use Rattle.run_model.specs.Formula.{Equal, Less, LessOrEqual, GreaterOrEqual, Truth};
ghost use Rattle.run_model.specs.Formula.{Watched, InTransit, Empty, Difference, Not, Temporal};
ghost use Rattle.run_model.specs.Formula.{Next, Ef, Ag, Eg, Af};
ghost use Rattle.run_model.specs.Worked.{p, q, x, y, cut, five_events, two_events};
ghost use Rattle.run_model.specs.Worked.{first_two_events, no_events, x_is, x_is_not, x_at_most};
ghost use Rattle.run_model.specs.Worked.{y_is, x_less_y, both, one_of};
ghost use Rattle.run_model.specs.Worked.{edge, at, path_to, run_with_watch, HasVerdict, HasSlice};
ghost use Rattle.run_model.specs.Worked.{HasNoSlice, HasWitness};
ghost use Rattle.run_model.specs.Witness.{ForEf, ForAg, ForEg};
ghost use Rattle.run_model.specs.Witness.{ExistsNext, Reach, Against, Always, StuckFinish};
ghost use Rattle.run_model.specs.Witness.{StuckPair, Nothing};

/// The clocks of the examples are those of orders, so there are runs.
pub fn examples_are_runs()
    ensures five_events { IsRun (run_with_watch five_events) }
    ensures first_two_events { IsRun (run_with_watch first_two_events) }
    ensures two_events { IsRun (run_with_watch two_events) }
    ensures no_events { IsRun (run_with_watch no_events) }
{}

/// The consistent cuts of the five events are these eight.
pub fn cuts_of_the_five_events()
    ensures { (c : Cut) → IsConsistent (clocks_of five_events) c ↔ Contains (cut 0 0 ∷ cut 1 0 ∷
        cut 1 1 ∷ cut 1 2 ∷ cut 2 0 ∷ cut 2 1 ∷ cut 2 2 ∷ cut 3 2 ∷ []) c }
{}

/// `EF (P.x = 2 & Q.y = 1)` on the five events.
pub fn two_and_one_is_reached()
    ensures verdict { HasVerdict five_events (Temporal Ef (both (x_is 2) (y_is 1))) true }
    ensures slice { HasSlice five_events (Temporal Ef (both (x_is 2) (y_is 1)))
        (cut 0 0) (cut 2 1) [] }
    ensures witness { HasWitness five_events ForEf (both (x_is 2) (y_is 1))
        (Reach (path_to (cut 2 1) (at 0 1 ∷ at 0 2 ∷ at 1 1 ∷ []))) }
{}

/// `EF (P.x = 0 & Q.y = 1)` on the five events: no cut satisfies it.
pub fn zero_and_one_is_never_reached()
    ensures verdict { HasVerdict five_events (Temporal Ef (both (x_is 0) (y_is 1))) false }
    ensures slice { HasNoSlice five_events (Temporal Ef (both (x_is 0) (y_is 1))) }
    ensures witness { HasWitness five_events ForEf (both (x_is 0) (y_is 1)) Nothing }
{}

/// `P.x = 0` on the five events: the initial cut alone.
pub fn zero_at_the_start()
    ensures verdict { HasVerdict five_events (x_is 0) true }
    ensures slice { HasSlice five_events (x_is 0) (cut 0 0) (cut 0 0) [] }
{}

/// `AG intransit(P,Q) <= 1` on the five events.
pub fn one_message_at_most()
    ensures verdict { HasVerdict five_events (Temporal Ag (InTransit p q LessOrEqual 1)) true }
    ensures slice { HasSlice five_events (Temporal Ag (InTransit p q LessOrEqual 1))
        (cut 0 0) (cut 3 2) [] }
    ensures witness { HasWitness five_events ForAg (InTransit p q LessOrEqual 1) Nothing }
{}

/// `EF AG P.x = 2` on the five events, and `AG P.x = 2`, which is true from the second event of P
/// on.
pub fn two_for_good()
    ensures verdict { HasVerdict five_events (Temporal Ef (Temporal Ag (x_is 2))) true }
    ensures slice { HasSlice five_events (Temporal Ef (Temporal Ag (x_is 2)))
        (cut 0 0) (cut 3 2) [] }
    ensures operand { HasSlice five_events (Temporal Ag (x_is 2)) (cut 2 0) (cut 3 2) [] }
    ensures witness { HasWitness five_events ForEf (Temporal Ag (x_is 2))
        (Reach (path_to (cut 2 0) (at 0 1 ∷ at 0 2 ∷ []))) }
{}

/// `empty(P,Q)` and `AG empty(P,Q)` on the five events.
pub fn empty_each_time()
    ensures operand_verdict { HasVerdict five_events (Empty p q) true }
    ensures operand { HasSlice five_events (Empty p q) (cut 0 0) (cut 3 2) (edge 1 1 0 1 ∷ []) }
    ensures verdict { HasVerdict five_events (Temporal Ag (Empty p q)) false }
    ensures slice { HasSlice five_events (Temporal Ag (Empty p q)) (cut 1 1) (cut 3 2) [] }
    ensures witness { HasWitness five_events ForAg (Empty p q)
        (Against (path_to (cut 1 0) (at 0 1 ∷ []))) }
{}

/// `EG empty(P,Q)` on the five events: the send and its receipt come together, so no path stays
/// where it is true.
pub fn empty_all_along()
    ensures verdict { HasVerdict five_events (Temporal Eg (Empty p q)) false }
    ensures slice { HasSlice five_events (Temporal Eg (Empty p q)) (cut 1 1) (cut 3 2) [] }
    ensures witness { HasWitness five_events ForEg (Empty p q)
        (StuckPair (at 0 1) (at 1 1)) }
{}

/// `EG P.x <= 2` on the five events.
pub fn two_at_most_all_along()
    ensures verdict { HasVerdict five_events (Temporal Eg (x_at_most 2)) true }
    ensures slice { HasSlice five_events (Temporal Eg (x_at_most 2)) (cut 0 0) (cut 3 2) [] }
    ensures witness { HasWitness five_events ForEg (x_at_most 2)
        (Always (path_to (cut 3 2) (at 0 1 ∷ at 0 2 ∷ at 1 1 ∷ at 1 2 ∷ at 0 3 ∷ []))) }
{}

/// `AG EF Q.y = 2` on the five events.
pub fn two_can_always_be_reached()
    ensures verdict { HasVerdict five_events (Temporal Ag (Temporal Ef (y_is 2))) true }
    ensures slice { HasSlice five_events (Temporal Ag (Temporal Ef (y_is 2)))
        (cut 0 0) (cut 3 2) [] }
    ensures witness { HasWitness five_events ForAg (Temporal Ef (y_is 2)) Nothing }
{}

/// `P.x = 1 & Q.y = 2 | P.x = 2 & Q.y = 1` on the five events: two of the four cuts that are shown
/// satisfy neither side.
pub fn one_of_two_pairs()
    ensures verdict { HasVerdict five_events
        (one_of (both (x_is 1) (y_is 2)) (both (x_is 2) (y_is 1)))
        false }
    ensures slice { HasSlice five_events (one_of (both (x_is 1) (y_is 2)) (both (x_is 2) (y_is 1)))
        (cut 1 1) (cut 2 2) [] }
{}

/// `EG true` on a process without events.
pub fn true_without_events()
    ensures verdict { HasVerdict no_events (Temporal Eg (Truth true)) true }
    ensures slice { HasSlice no_events (Temporal Eg (Truth true)) (0 ∷ []) (0 ∷ []) [] }
    ensures witness { HasWitness no_events ForEg (Truth true)
        (Always (path_to (0 ∷ []) [])) }
{}

/// `EF (P.x = 1 & Q.y = 0)` and `EF (P.x = 2 & Q.y = 1)` on the two events.
pub fn one_before_the_other()
    ensures reached { HasVerdict two_events (Temporal Ef (both (x_is 1) (y_is 0))) true }
    ensures not_reached { HasVerdict two_events (Temporal Ef (both (x_is 2) (y_is 1))) false }
{}

/// `P.x = 0 & Q.y = 1 | P.x = 1 & Q.y = 0` on the two events: the initial cut is shown, and the
/// formula is false there.
pub fn exactly_one_step()
    ensures verdict { HasVerdict two_events
        (one_of (both (x_is 0) (y_is 1)) (both (x_is 1) (y_is 0)))
        false }
    ensures slice { HasSlice two_events (one_of (both (x_is 0) (y_is 1)) (both (x_is 1) (y_is 0)))
        (cut 0 0) (cut 1 1) [] }
{}

/// `P.x = 0 | Q.y = 2` on the five events.
pub fn before_or_after()
    ensures verdict { HasVerdict five_events (one_of (x_is 0) (y_is 2)) true }
    ensures slice { HasSlice five_events (one_of (x_is 0) (y_is 2))
        (cut 0 0) (cut 3 2) (edge 1 2 0 1 ∷ edge 1 2 1 1 ∷ []) }
{}

/// `P.x != 1` and `EG P.x != 1` on the five events.
pub fn not_one()
    ensures verdict { HasVerdict five_events (x_is_not 1) true }
    ensures slice { HasSlice five_events (x_is_not 1)
        (cut 0 0) (cut 3 2) (edge 0 2 0 1 ∷ edge 0 2 1 1 ∷ []) }
    ensures all_along { HasVerdict five_events (Temporal Eg (x_is_not 1)) false }
    ensures witness { HasWitness five_events ForEg (x_is_not 1)
        (StuckPair (at 0 1) (at 0 2)) }
{}

/// `EF (P@stable & Q.y = 2)` on the five events, where the watch is true after none and after three
/// of P's events.
pub fn stable_and_two()
    ensures verdict { HasVerdict five_events (Temporal Ef (both (Watched p p) (y_is 2))) true }
    ensures slice { HasSlice five_events (Temporal Ef (both (Watched p p) (y_is 2)))
        (cut 0 0) (cut 3 2) [] }
    ensures witness { HasWitness five_events ForEf (both (Watched p p) (y_is 2))
        (Reach (path_to (cut 3 2) (at 0 1 ∷ at 0 2 ∷ at 1 1 ∷ at 1 2 ∷ at 0 3 ∷ []))) }
{}

/// `EF (P.x = 2 & Q.y = 1)` and `EG empty(P,Q)` on the first two of the five events.
pub fn before_the_receipts()
    ensures not_yet { HasVerdict first_two_events (Temporal Ef (both (x_is 2) (y_is 1))) false }
    ensures verdict { HasVerdict first_two_events (Temporal Eg (Empty p q)) false }
    ensures witness { HasWitness first_two_events ForEg (Empty p q) StuckFinish }
{}

/// `EX P P.x = 1` on the five events: true where the first event of P is the next one.
pub fn one_after_the_next_of_p()
    ensures verdict { HasVerdict five_events (Next p (x_is 1)) true }
    ensures slice { HasSlice five_events (Next p (x_is 1)) (cut 0 0) (cut 0 0) [] }
    ensures witness { HasWitness five_events (ExistsNext 0) (x_is 1)
        (Reach (path_to (cut 1 0) (at 0 1 ∷ []))) }
{}

/// `EX Q Q.y = 1` on the five events: at the start the first event of Q is not enabled yet.
pub fn one_after_the_next_of_q()
    ensures verdict { HasVerdict five_events (Next q (y_is 1)) false }
    ensures slice { HasSlice five_events (Next q (y_is 1)) (cut 1 0) (cut 2 0) [] }
    ensures witness { HasWitness five_events (ExistsNext 1) (y_is 1) Nothing }
{}

/// `EX P true` at the end of the five events, where no process has a next event.
pub fn no_next_at_the_end()
    ensures { HasVerdict five_events (Temporal Ag (Next p (Truth true))) false }
{}

/// `EF P.x - Q.y >= 2` and `AG P.x - Q.y <= 1` on the five events.
pub fn two_ahead()
    ensures reached { HasVerdict five_events (Temporal Ef (x_less_y GreaterOrEqual 2)) true }
    ensures further { HasVerdict five_events (Temporal Ef (x_less_y GreaterOrEqual 3)) false }
    ensures each_time { HasVerdict five_events (Temporal Ag (x_less_y LessOrEqual 1)) false }
{}

/// Formulas of the class and outside it: a disjunction of regular formulas, a disjunction below an
/// operator, `AF`, the negation of a channel's equation, `EX` with and without a negation, and
/// differences of two processes, within one process, and with `!=` after a negation.
pub fn formulas_of_the_class()
    ensures disjunction { IsOfClass (one_of (both (x_is 1) (y_is 2)) (both (x_is 2) (y_is 1))) }
    ensures not_regular { IsFalse (is_conjunctive true (one_of (both (x_is 1) (y_is 2)) (both
        (x_is 2) (y_is 1)))) }
    ensures inside { IsFalse (is_disjunctive true (Temporal Ef (one_of (x_is 2) (y_is 1)))) }
    ensures unanalysed { IsFalse (is_disjunctive true (Temporal Af (x_is 2))) }
    ensures negated_equation { IsFalse (is_disjunctive true (Not (InTransit p q Equal 1))) }
    ensures next_event { IsOfClass (Next p (x_is 1)) }
    ensures negated_next_event { IsFalse (is_disjunctive true (Not (Next p (x_is 1)))) }
    ensures difference { IsOfClass (Not (x_less_y Less 1)) }
    ensures within_one { IsFalse (is_disjunctive true (Difference p x p y LessOrEqual (pos 1))) }
    ensures negated_difference { IsFalse (is_disjunctive true (Not (x_less_y Equal 1))) }
{}
