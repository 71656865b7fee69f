//! Laws of importing, as contracts of functions that do nothing.

ghost use Rattle.vclog_import.specs.Laws.{CountersAreTheOrder, ImportedLogsFit};
ghost use Rattle.vclog_import.specs.Laws.{LongTextsAreFaulty};

/// In the trace of an imported text an event happened before another exactly where the clock of the
/// other one counts it.
pub fn counters_are_the_order()
    ensures { CountersAreTheOrder }
{}

/// An imported log may be handed on: its header and its events could be read, and there are at most
/// 50,000.
pub fn imported_logs_fit()
    ensures { ImportedLogsFit }
{}

/// A text of more than 67,108,864 bytes has a fault, and more bytes don't change it.
pub fn long_texts_are_faulty()
    ensures { LongTextsAreFaulty }
{}
