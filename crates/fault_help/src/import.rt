//! What helps with a fault of a text of two-line records.
ghost use Rattle.fault_help.specs.LogHelp.{import_example, import_expected};
ghost use Rattle.std.specs.Prelude.{◌≡◌, ◌≤◌, length};

use fault_kinds::ImportCode;

/// What is expected where a text of two-line records has the fault.
pub fn import_expected(code: ImportCode) -> &'static [u8]
    ensures text { result.now ≡ import_expected code }
    ensures short { length result.now ≤ 80 }
{
    match code {
        ImportCode::BadHostLine => b"a host, one space and its clock",
        ImportCode::BadClock => b"a JSON object that has a whole number for each host",
        ImportCode::TooManyHosts => b"at most 32 hosts, one for each process",
        ImportCode::TooManyEvents => b"at most 50,000 records",
        ImportCode::Truncated => b"two lines for each event, the second its description",
        ImportCode::TooLong => b"at most 67,108,864 bytes",
        ImportCode::HostClash => b"hosts that differ in their letters and digits",
        ImportCode::UnknownHost => b"hosts that have records, or the count 0",
    }
}

/// A text that is in order there, or what helps.
pub fn import_example(code: ImportCode) -> &'static [u8]
    ensures text { result.now ≡ import_example code }
    ensures short { length result.now ≤ 80 }
{
    match code {
        ImportCode::BadHostLine => b"client {\"client\":1}",
        ImportCode::BadClock => b"server {\"server\":1,\"client\":1}",
        ImportCode::TooManyHosts => b"one host for all connections of a process",
        ImportCode::TooManyEvents => b"a shorter run, or no heartbeats and polls",
        ImportCode::Truncated => b"client {\"client\":2} and, in the next line, up",
        ImportCode::TooLong => b"short descriptions",
        ImportCode::HostClash => b"node_2 {\"node_2\":1}",
        ImportCode::UnknownHost => b"server {\"server\":1,\"client\":1}",
    }
}
