// Worked examples as laws: questions on small logs.
ghost use Rattle.question_meaning.specs.Question.{Always, AtEnd, Can, Never, Plain, Surely};
ghost use Rattle.question_meaning.specs.Worked.{FailsOf, HoldsOf};
ghost use Rattle.run_model.specs.Formula.{Not};
ghost use Rattle.run_model.specs.Worked.{both, five_events, one_of, two_events, x_at_most, x_is};
ghost use Rattle.run_model.specs.Worked.{y_is};

/// `P.x = 0 & Q.y = 1` on the five events: no cut satisfies it, so each satisfies its negation.
pub fn true_nowhere_is_never()
    ensures never { HoldsOf five_events (Never (both (x_is 0) (y_is 1))) }
    ensures can { FailsOf five_events (Can (both (x_is 0) (y_is 1))) }
    ensures surely { FailsOf five_events (Surely (both (x_is 0) (y_is 1))) }
    ensures always_not { HoldsOf five_events (Always (Not (both (x_is 0) (y_is 1)))) }
{}

/// On two processes that do not meet, each sets its variable from 0 to 1: there are two paths, and
/// `P.x = 1 & Q.y = 0` lies on one of them. Each path meets `P.x = 1`.
pub fn some_order_is_not_each_order()
    ensures can { HoldsOf two_events (Can (both (x_is 1) (y_is 0))) }
    ensures surely { FailsOf two_events (Surely (both (x_is 1) (y_is 0))) }
    ensures never { FailsOf two_events (Never (both (x_is 1) (y_is 0))) }
    ensures surely_one { HoldsOf two_events (Surely (x_is 1)) }
    ensures surely_one_of_two { HoldsOf two_events
        (Surely (one_of (both (x_is 1) (y_is 0)) (both (x_is 0) (y_is 1)))) }
{}

/// `P.x = 0`, `P.x = 1` and `P.x = 2` on the five events: at the start, on the way, at the end.
pub fn the_end_is_no_moment_before()
    ensures at_end { HoldsOf five_events (AtEnd (x_is 2)) }
    ensures not_at_end { FailsOf five_events (AtEnd (x_is 1)) }
    ensures on_the_way { HoldsOf five_events (Surely (x_is 1)) }
    ensures at_the_start { HoldsOf five_events (Plain (x_is 0)) }
    ensures not_at_the_start { FailsOf five_events (Plain (x_is 2)) }
{}

/// `P.x <= 2` and `P.x <= 1` on the five events.
pub fn true_throughout_is_always()
    ensures always { HoldsOf five_events (Always (x_at_most 2)) }
    ensures not_always { FailsOf five_events (Always (x_at_most 1)) }
{}
