//! Laws of the grammar, as contracts of functions that do nothing.

ghost use Rattle.std.specs.Prelude.{◌≡◌, ℕ, List, None};
ghost use Rattle.event_log.specs.declared.log.Log.{Log};
ghost use Rattle.event_log.specs.LogText.{log_text, log_items, lined};
ghost use Rattle.event_log.specs.Faults.{items, items_in};
ghost use Rattle.event_log.specs.FittingItems.{FitFirst};
ghost use Rattle.event_log.specs.Laws.{IsLog, IsWellFormed, IsTextOf};
ghost use Rattle.event_log.specs.NotedLines.{LinesAreNoted};

/// The text of a log has no fault, and reading it gives the items of the log.
pub fn a_log_reads_back()
    ensures { (log : Log) → IsLog log
        → IsWellFormed (log_text log) × (items_in (log_text log) ≡ log_items (lined log)) }
{}

/// A text without a fault is the text of a log, whose items reading it gives, and which can be
/// written.
pub fn no_fault_is_a_log()
    ensures { (bytes : List ℕ) → IsWellFormed bytes → (log : Log) × IsTextOf bytes log }
{}

/// Whatever the bytes are, the items that reading them gives are those of a log, as far as they go:
/// first a header that fits, and then events that fit it.
pub fn items_fit()
    ensures { (past : List ℕ) → FitFirst (items past) }
{}

/// The line that a header notes for a process is the `vars` line of its variables, and where none
/// is noted it has no variables.
pub fn lines_are_noted()
    ensures { LinesAreNoted }
{}
