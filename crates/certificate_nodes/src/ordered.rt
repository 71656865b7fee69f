//! The order of the events of a run, which a trace keeps.
ghost use Rattle.std.specs.Prelude.{◌≡◌, false};
ghost use Rattle.part_pulls.specs.PassedOn.{clocks_of};

use causal_order::Order;
use part_pulls::Trace;
use std::marker::Model;

/// A trace that isn't spent, of which the order of its events alone is asked. Contracts see the
/// clocks of the events.
#[derive(Debug, Drop)]
pub(crate) struct OrderedRun {
    trace: Trace,
}

impl Model for OrderedRun {
    ghost use Rattle.std.specs.Prelude.{◌≡◌, false};
    ghost use Rattle.run_model.specs.Cut.{Clocks};
    ghost use Rattle.part_pulls.specs.PassedOn.{clocks_of};

    ghost Value = { Clocks };

    ghost view = { λ r. clocks_of r.trace.states.events };

    ghost invariant = { λ r. r.trace.spent ≡ false };
}

impl OrderedRun {
    /// The run of this trace.
    pub(crate) fn new(trace: Trace) -> OrderedRun
        requires { trace.spent ≡ false }
        ensures { result ≡ clocks_of trace.states.events }
    {
        OrderedRun { trace }
    }

    /// The order of its events.
    pub(crate) fn order(&self) -> &Order
        ensures { result.now ≡ self.now }
    {
        self.trace.order()
    }
}
