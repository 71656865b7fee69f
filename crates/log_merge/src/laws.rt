//! Laws of merging, as contracts of functions that do nothing.

ghost use Rattle.log_merge.specs.Laws.{NoFaultIsApart, AnyOrderWillDo, MergedLogsFit};
ghost use Rattle.log_merge.specs.Laws.{LogsAreSources, BatchesDoNotMatter};

/// There is no fault exactly where the sources are of one version and of the same processes, each
/// has lines of at most one of them, no two have lines of the same one, and they are few enough.
pub fn no_fault_is_apart()
    ensures { NoFaultIsApart }
{}

/// In every order of the sources there is a log, and then the same one, or there is none.
pub fn any_order_will_do()
    ensures { AnyOrderWillDo }
{}

/// The merged log may be handed on: its header and its events could be read, and its clocks can be
/// checked.
pub fn merged_logs_fit()
    ensures { MergedLogsFit }
{}

/// A log that reading gives is a source, and so is the same log with all its events in one batch.
pub fn logs_are_sources()
    ensures { LogsAreSources }
{}

/// Sources with all their events in one batch have the same fault, or the same merged log.
pub fn batches_do_not_matter()
    ensures { BatchesDoNotMatter }
{}
