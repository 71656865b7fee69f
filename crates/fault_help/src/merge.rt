//! What helps with a fault of logs that are merged.
ghost use Rattle.fault_help.specs.LogHelp.{merge_example, merge_expected};
ghost use Rattle.std.specs.Prelude.{◌≡◌, ◌≤◌, length};

use crate::log::{log_example, log_expected};
use fault_kinds::MergeCode;

/// What is expected where logs that are merged have the fault.
pub fn merge_expected(code: MergeCode) -> &'static [u8]
    ensures text { result.now ≡ merge_expected code }
    ensures short { length result.now ≤ 80 }
{
    match code {
        MergeCode::Log(code) => log_expected(code),
        MergeCode::HeaderDiffers => b"one version and one `procs` line in all logs",
        MergeCode::TwoProcesses => b"the `vars` and `ev` lines of one process",
        MergeCode::ProcessTwice => b"one log for each process",
        MergeCode::TooManySources => b"at most one log for each of 32 processes",
        MergeCode::TooManyEvents => b"at most 50,000 events in all logs together",
        MergeCode::TooLong => b"at most 67,108,864 bytes in all logs together",
    }
}

/// A text that is in order there, or what helps.
pub fn merge_example(code: MergeCode) -> &'static [u8]
    ensures text { result.now ≡ merge_example code }
    ensures short { length result.now ≤ 80 }
{
    match code {
        MergeCode::Log(code) => log_example(code),
        MergeCode::HeaderDiffers => b"procs client relay store",
        MergeCode::TwoProcesses => b"ev client 2,0,0 int",
        MergeCode::ProcessTwice => b"cat client.log relay.log store.log",
        MergeCode::TooManySources => b"cat client.log relay.log store.log",
        MergeCode::TooManyEvents => b"shorter runs, or no heartbeats and polls",
        MergeCode::TooLong => b"in each event only the variables that change",
    }
}
