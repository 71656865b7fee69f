//! What helps with a fault of a question over processes.
ghost use Rattle.fault_help.specs.OverHelp.{barred_example, barred_expected, barred_text};
ghost use Rattle.fault_help.specs.OverHelp.{over_example, over_expected, over_text};
ghost use Rattle.std.specs.Prelude.{◌≡◌, ◌≤◌, length};

use over_questions::BarredKind;
use question_instances::OverCode;

/// What is wrong behind the word `for`.
pub fn over_text(code: OverCode) -> &'static [u8]
    ensures text { result.now ≡ over_text code }
    ensures short { length result.now ≤ 80 }
{
    match code {
        OverCode::NoName => b"Q7 name for a process missing",
        OverCode::SameName => b"Q8 same name twice",
        OverCode::NoColon => b"Q9 colon missing",
    }
}

/// What is expected where a question has the fault.
pub fn over_expected(code: OverCode) -> &'static [u8]
    ensures text { result.now ≡ over_expected code }
    ensures short { length result.now ≤ 80 }
{
    match code {
        OverCode::NoName => b"a name that begins with a letter or `_`",
        OverCode::SameName => b"another name for the second process",
        OverCode::NoColon => b"a colon behind one or two names",
    }
}

/// A question that is in order there.
pub fn over_example(code: OverCode) -> &'static [u8]
    ensures text { result.now ≡ over_example code }
    ensures short { length result.now ≤ 80 }
{
    match code {
        OverCode::NoName => b"for p: never p.cs = 2",
        OverCode::SameName => b"for p q: never p.cs = 1 & q.cs = 1",
        OverCode::NoColon => b"for p q: never p.cs = 1 & q.cs = 1",
    }
}

/// What a question over processes has and may not have.
pub fn barred_text(kind: BarredKind) -> &'static [u8]
    ensures text { result.now ≡ barred_text kind }
    ensures short { length result.now ≤ 80 }
{
    match kind {
        BarredKind::Watch => b"Q10 watch behind `for`",
        BarredKind::Difference => b"Q11 difference behind `for`",
    }
}

/// What is expected in its place.
pub fn barred_expected(kind: BarredKind) -> &'static [u8]
    ensures text { result.now ≡ barred_expected kind }
    ensures short { length result.now ≤ 80 }
{
    match kind {
        BarredKind::Watch => b"comparisons of variables, or a question of its own for each process",
        BarredKind::Difference =>
            b"no difference of variables, or a question of its own for each pair",
    }
}

/// A question that is in order there.
pub fn barred_example(kind: BarredKind) -> &'static [u8]
    ensures text { result.now ≡ barred_example kind }
    ensures short { length result.now ≤ 80 }
{
    match kind {
        BarredKind::Watch => b"never client@stable & client.sent = 1",
        BarredKind::Difference => b"never client.sent - store.kept > 1",
    }
}
