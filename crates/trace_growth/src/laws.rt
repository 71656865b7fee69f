//! Laws of growing traces, as contracts of functions that do nothing.
ghost use Rattle.trace_growth.specs.Laws.{BatchOnlyAdds, FaultlessBatchKeepsATrace};

/// A batch that is taken changes no clock and no state that is there: more come behind them. And
/// the trace is a run again.
pub fn a_batch_only_adds()
    ensures adds { BatchOnlyAdds }
    ensures again { FaultlessBatchKeepsATrace }
{}
