// Logs that tell of one run: with the same processes, variables and opening values, and the same
// events on each process. Their runs are equal (`equal_logs_have_equal_runs`), and so are their
// last reports but for the number of the batch (`equal_runs_have_equal_reports`). On which lines
// the events stand, in which batches they came, and how those of different processes were mixed,
// has no part in it.
//
// Not said here: that a log is the one that its bytes are read as, and that its last report is what
// is written. `log_rules`, `log_judgement` and `pota_top` say so.
#![tactic(auto)]

ghost use Rattle.equal_runs.specs.Laws.{TheirRunsAreEqual, TheirReportsAreEqual};
ghost use Rattle.equal_runs.specs.Laws.{TheirTextsDifferInTheBatchAlone, LogsOfTextsAreSuchLogs};

/// Logs without a fault that tell of one run have equal runs. A clock that is left out is filled in
/// the same in both.
pub fn equal_logs_have_equal_runs()
    ensures runs { TheirRunsAreEqual }
    ensures texts { LogsOfTextsAreSuchLogs }
{}

/// They have equal last reports, but for the number of the last batch.
pub fn equal_runs_have_equal_reports()
    ensures reports { TheirReportsAreEqual }
    ensures texts { TheirTextsDifferInTheBatchAlone }
{}
