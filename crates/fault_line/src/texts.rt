//! What is wrong with a log or a formula, in words.
ghost use Rattle.std.specs.Prelude.{◌≡◌, ◌≤◌, length};
ghost use Rattle.fault_line.specs.FaultText.{formula_code_text, log_code_text, outside_text};
ghost use Rattle.fault_line.specs.FaultText.{import_code_text, merge_code_text};

use event_log::LogCode;
use fault_kinds::{ImportCode, MergeCode};
use rctl_grammar::{FormulaCode, Outside};

// An operator outside the class.
fn outside_text(outside: Outside) -> &'static [u8]
    ensures text { result.now ≡ outside_text outside }
    ensures short { length result.now ≤ 64 }
{
    match outside {
        Outside::Af => b"F9 outside the class: AF",
        Outside::Ax => b"F9 outside the class: AX",
        Outside::Eu => b"F9 outside the class: EU",
        Outside::Au => b"F9 outside the class: AU",
    }
}

/// What is wrong with a formula.
pub fn formula_code_text(code: FormulaCode) -> &'static [u8]
    ensures text { result.now ≡ formula_code_text code }
    ensures short { length result.now ≤ 64 }
{
    match code {
        FormulaCode::Token => b"F1 bad token",
        FormulaCode::Syntax => b"F2 syntax",
        FormulaCode::Number => b"F3 number out of range",
        FormulaCode::TooLong => b"F4 formula too long",
        FormulaCode::TooDeep => b"F5 formula too deep",
        FormulaCode::TooManyNodes => b"F6 too many nodes",
        FormulaCode::NotRegular => b"F7 not regular",
        FormulaCode::DisjunctionInside => b"F8 disjunction inside",
        FormulaCode::OutsideClass(outside) => outside_text(outside),
        FormulaCode::UnknownProcess => b"F10 unknown process",
        FormulaCode::UnknownVariable => b"F11 unknown variable",
        FormulaCode::UnknownWatch => b"F12 unknown watch",
        FormulaCode::WatchTwice => b"F13 watch on two processes",
    }
}

/// What is wrong with a log.
pub fn log_code_text(code: LogCode) -> &'static [u8]
    ensures text { result.now ≡ log_code_text code }
    ensures short { length result.now ≤ 64 }
{
    match code {
        LogCode::BadHeader => b"L1 bad header",
        LogCode::BadProcs => b"L2 bad procs line",
        LogCode::BadLine => b"L3 bad line",
        LogCode::UnknownProcess => b"L4 unknown process",
        LogCode::UnknownVariable => b"L5 unknown variable",
        LogCode::ClockWidth => b"L6 clock width",
        LogCode::ClockOwn => b"L7 own clock component is not the position",
        LogCode::ClockBack => b"L8 clock goes back",
        LogCode::ClockDangling => b"L9 clock names an event that is not there",
        LogCode::ClockOpen => b"L10 clock lacks a predecessor's predecessor",
        LogCode::ClockLoop => b"L11 clock loop",
        LogCode::MessageTwice => b"L12 message twice",
        LogCode::ReceiveUnsent => b"L13 receipt of an unsent message",
        LogCode::ReceiveEarly => b"L14 receipt before its send",
        LogCode::SelfMessage => b"L15 message to itself",
        LogCode::Truncated => b"L16 truncated",
        LogCode::Trailing => b"L17 bytes after the end",
        LogCode::TooManyEvents => b"L18 too many events",
        LogCode::LineTooLong => b"L19 line too long",
        LogCode::LogTooLong => b"L20 log too long",
        LogCode::CounterFalls => b"L21 counter falls",
    }
}

/// What is wrong with a text of two-line records.
pub fn import_code_text(code: ImportCode) -> &'static [u8]
    ensures text { result.now ≡ import_code_text code }
    ensures short { length result.now ≤ 64 }
{
    match code {
        ImportCode::BadHostLine => b"I1 bad host line",
        ImportCode::BadClock => b"I2 bad clock",
        ImportCode::TooManyHosts => b"I3 too many hosts",
        ImportCode::TooManyEvents => b"I4 too many events",
        ImportCode::Truncated => b"I5 truncated",
        ImportCode::TooLong => b"I6 log too long",
        ImportCode::HostClash => b"I7 host names clash",
        ImportCode::UnknownHost => b"I8 unknown host",
    }
}

/// What is wrong with logs that are to be merged: with one of them, or with them together.
pub fn merge_code_text(code: MergeCode) -> &'static [u8]
    ensures text { result.now ≡ merge_code_text code }
    ensures short { length result.now ≤ 64 }
{
    match code {
        MergeCode::Log(code) => log_code_text(code),
        MergeCode::HeaderDiffers => b"M1 header differs",
        MergeCode::TwoProcesses => b"M2 two processes in one source",
        MergeCode::ProcessTwice => b"M3 process in two sources",
        MergeCode::TooManySources => b"M4 too many sources",
        MergeCode::TooManyEvents => b"M5 too many events",
        MergeCode::TooLong => b"M6 logs too long",
    }
}
