//! What helps with a fault of a question's name, or of the words of its form.
ghost use Rattle.fault_help.specs.QuestionHelp.{head_example, head_expected, head_text};
ghost use Rattle.std.specs.Prelude.{◌≡◌, ◌≤◌, length};

use question_text::HeadCode;

/// What is wrong with a question before its formula.
pub fn head_text(code: HeadCode) -> &'static [u8]
    ensures text { result.now ≡ head_text code }
    ensures short { length result.now ≤ 80 }
{
    match code {
        HeadCode::TooLong => b"Q1 question too long",
        HeadCode::NoName => b"Q2 name missing",
        HeadCode::WordsAsName => b"Q3 form as a name",
        HeadCode::NameByte => b"Q4 bad name",
        HeadCode::NoEnd => b"Q5 end missing",
    }
}

/// What is expected where a question has the fault.
pub fn head_expected(code: HeadCode) -> &'static [u8]
    ensures text { result.now ≡ head_expected code }
    ensures short { length result.now ≤ 80 }
{
    match code {
        HeadCode::TooLong => b"at most 8,192 bytes",
        HeadCode::NoName => b"a name before the colon, or no colon",
        HeadCode::WordsAsName => b"another name, or no colon",
        HeadCode::NameByte => b"a name without control bytes, `#` and backslashes",
        HeadCode::NoEnd => b"`end` behind `at`",
    }
}

/// A question that is in order there.
pub fn head_example(code: HeadCode) -> &'static [u8]
    ensures text { result.now ≡ head_example code }
    ensures short { length result.now ≤ 80 }
{
    match code {
        HeadCode::TooLong => b"never client.sent = 1",
        HeadCode::NoName => b"sent: never client.sent = 1",
        HeadCode::WordsAsName => b"never client.sent = 1",
        HeadCode::NameByte => b"row 1: never client.sent = 1",
        HeadCode::NoEnd => b"at end client.sent = 1",
    }
}
