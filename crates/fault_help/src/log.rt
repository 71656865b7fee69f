//! What helps with a fault of a log.
ghost use Rattle.fault_help.specs.LogHelp.{log_example, log_expected};
ghost use Rattle.std.specs.Prelude.{◌≡◌, ◌≤◌, length};

use event_log::LogCode;

/// What is expected where a log has the fault.
pub fn log_expected(code: LogCode) -> &'static [u8]
    ensures text { result.now ≡ log_expected code }
    ensures short { length result.now ≤ 80 }
{
    match code {
        LogCode::BadHeader => b"`pota-log 1` or `pota-log 2` as the first bytes",
        LogCode::BadProcs => b"`procs` and 1 to 32 different names, one space between them",
        LogCode::BadLine =>
            b"`vars`, `ev`, `batch` or `end` at its place, single spaces, whole numbers",
        LogCode::UnknownProcess => b"a name from line 2",
        LogCode::UnknownVariable => b"a variable of the process's own `vars` line",
        LogCode::ClockWidth => b"one number for each process",
        LogCode::ClockOwn => b"1 for the process's first event, then 2, 3, ..",
        LogCode::ClockBack => b"numbers that never fall along a process",
        LogCode::ClockDangling => b"numbers of events that the log has by the end of this batch",
        LogCode::ClockOpen => b"at each receipt the greater of both numbers, for every process",
        LogCode::ClockLoop => b"the clock as it was at the event, and not later",
        LogCode::MessageTwice => {
            b"one send and at most one receipt for each sender, receiver and number"
        }
        LogCode::ReceiveUnsent => b"the send in the same batch or an earlier one",
        LogCode::ReceiveEarly => {
            b"the clock that came with the message, merged before the receipt is logged"
        }
        LogCode::SelfMessage => b"another process as partner, or an `int` event",
        LogCode::Truncated => b"`end` and a newline behind the last event",
        LogCode::Trailing => b"nothing behind the `end` line",
        LogCode::TooManyEvents => b"at most 50,000 events",
        LogCode::LineTooLong => b"at most 4,096 bytes, and a newline after each event",
        LogCode::LogTooLong => b"at most 67,108,864 bytes",
        LogCode::CounterFalls => b"a variable that never falls, in each difference of a formula",
    }
}

/// A text that is in order there, or what helps.
pub fn log_example(code: LogCode) -> &'static [u8]
    ensures text { result.now ≡ log_example code }
    ensures short { length result.now ≤ 80 }
{
    match code {
        LogCode::BadHeader => b"pota-log 1",
        LogCode::BadProcs => b"procs client relay store",
        LogCode::BadLine => b"ev client 2,0,0 int sent=2",
        LogCode::UnknownProcess => b"ev client 2,0,0 int",
        LogCode::UnknownVariable => b"ev client 1,0,0 send relay 7 sent=1",
        LogCode::ClockWidth => b"ev client 1,0,0 send relay 7",
        LogCode::ClockOwn => b"ev client 2,0,0 int",
        LogCode::ClockBack => b"ev store 1,2,2 int kept=0",
        LogCode::ClockDangling => b"ev client 1,0,0 send relay 7",
        LogCode::ClockOpen => b"ev store 1,2,1 recv relay 8 kept=1",
        LogCode::ClockLoop => b"ev client 1,0,0 send relay 7",
        LogCode::MessageTwice => b"ev client 2,0,0 send relay 9",
        LogCode::ReceiveUnsent => b"ev store 1,2,1 recv relay 8 kept=1",
        LogCode::ReceiveEarly => b"ev relay 1,1,0 recv client 7",
        LogCode::SelfMessage => b"ev store 1,2,2 int",
        LogCode::Truncated => b"end",
        LogCode::Trailing => b"end",
        LogCode::TooManyEvents => b"a shorter run, or no heartbeats and polls",
        LogCode::LineTooLong => b"ev client 2,0,0 int",
        LogCode::LogTooLong => b"in each event only the variables that change",
        LogCode::CounterFalls => b"two counters that only rise, one up and one down",
    }
}
