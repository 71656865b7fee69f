// What is due of two logs that tell of one run: the same text but for the line of the batch
// (`equal_runs_have_equal_texts`). `log_rules` says what is due of bytes that are read as such
// logs (`no_fault_is_due_of_a_log`).
//
// Not said here: the same of the reports after each batch. There the runs differ.
#![tactic(auto)]

ghost use Rattle.equal_texts.specs.Dues.{TheirDueTextsDifferInTheBatchAlone};

/// Whatever the batches, the lines and the order between processes are, what is written of a whole
/// log goes by the events of each process.
pub fn equal_runs_have_equal_texts()
    ensures { TheirDueTextsDifferInTheBatchAlone }
{}
