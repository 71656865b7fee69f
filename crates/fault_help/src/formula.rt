//! What helps with a fault of a formula.
ghost use Rattle.fault_help.specs.QuestionHelp.{formula_example, formula_expected};
ghost use Rattle.std.specs.Prelude.{◌≡◌, ◌≤◌, length};

use rctl_grammar::FormulaCode;

/// What is expected where a formula has the fault.
pub fn formula_expected(code: FormulaCode) -> &'static [u8]
    ensures text { result.now ≡ formula_expected code }
    ensures short { length result.now ≤ 80 }
{
    match code {
        FormulaCode::Token => b"a symbol, a name or a number without a leading zero",
        FormulaCode::Syntax => b"a formula; at its end: more of it",
        FormulaCode::Number => {
            b"-9223372036854775808 to 9223372036854775807, and 0 or more messages"
        }
        FormulaCode::TooLong => b"at most 4,096 bytes",
        FormulaCode::TooDeep => b"at most 16 nested parentheses, signs and operators",
        FormulaCode::TooManyNodes => b"at most 64 comparisons, signs and operators",
        FormulaCode::NotRegular =>
            b"variables of one process compared, or a difference; `!` before no operator",
        FormulaCode::DisjunctionInside => b"`|` between several processes at the top only",
        FormulaCode::OutsideClass(_) => b"`EF`, `AG`, `EG` or `EX a`",
        FormulaCode::UnknownProcess => b"a name of the `procs` line",
        FormulaCode::UnknownVariable => b"a name of the process's `vars` line",
        FormulaCode::UnknownWatch => b"`stable`, `calm` or `owing`",
        FormulaCode::WatchTwice => b"each watch on one process",
    }
}

/// A question that is in order there, or what helps.
pub fn formula_example(code: FormulaCode) -> &'static [u8]
    ensures text { result.now ≡ formula_example code }
    ensures short { length result.now ≤ 80 }
{
    match code {
        FormulaCode::Token => b"client.sent = 1",
        FormulaCode::Syntax => b"EF (client.sent = 1 & store.kept = 1)",
        FormulaCode::Number => b"intransit(client,relay) >= 0",
        FormulaCode::TooLong => b"one question for each half of it",
        FormulaCode::TooDeep => b"a.x = 1 & b.x = 1 & c.x = 1",
        FormulaCode::TooManyNodes => b"a.x >= 1 & a.x <= 20",
        FormulaCode::NotRegular => b"never client.sent - store.kept > 0",
        FormulaCode::DisjunctionInside => b"always client.sent = 1 | store.kept = 0",
        FormulaCode::OutsideClass(_) => b"surely client.sent = 1",
        FormulaCode::UnknownProcess => b"EF client.sent = 1",
        FormulaCode::UnknownVariable => b"EF store.kept = 1",
        FormulaCode::UnknownWatch => b"client@calm",
        FormulaCode::WatchTwice => b"client@calm & store@stable",
    }
}
