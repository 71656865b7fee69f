//! The truth of an expression in one state.
ghost use Rattle.std.specs.Prelude.{◌≡◌, ◌<◌, ◌≤◌, map, length};
ghost use Rattle.run_model.specs.Meaning.{compares as compares_of};
ghost use Rattle.rctl_grammar.specs.Shape.{relation_of};
ghost use Rattle.rctl_parts.specs.Exprs.{expr_of, exprs};
ghost use Rattle.rctl_parts.specs.MadeFor.{SideFits};
ghost use Rattle.local_preds.specs.inside.Rows.{IsState, IsReadableIn, AreReadableIn, truth_in};
ghost use Rattle.local_preds.specs.inside.Rows.{all_true_in, some_true_in, side_in, variables_in};

use event_log::States;
use pota_base::List;
use rctl_grammar::Compare;
use rctl_parts::{LocalExpr, LocalSide};

/// A state of a process, and the truths of the watches there.
#[derive(Drop)]
pub struct StateAt<'a> {
    pub states: &'a States,
    pub watch_rows: &'a List<List<bool>>,
    pub process: u32,
    /// How many events of the process were before.
    pub position: u32,
}

impl StateAt<'_> {
    ghost use Rattle.local_preds.specs.inside.Rows.{IsState, value_in, variables_in, watch_in};
    ghost use Rattle.local_preds.specs.inside.Rows.{HasWatch};

    /// The value of a variable.
    fn value(&self, variable: u32) -> i64
        requires state { IsState self.now }
        requires variable { variable < variables_in self.now }
        ensures { result ≡ value_in self.now variable }
    {
        self.states.value(self.process, self.position, variable)
    }

    /// The truth of a watch.
    fn watched(&self, watch: u32) -> bool
        requires state { IsState self.now }
        requires watch { HasWatch self.now watch }
        ensures { result ≡ watch_in self.now watch }
    {
        let row = self.watch_rows.get(watch as usize);
        *row.get(self.position as usize)
    }

    /// The value of the right side of a comparison.
    fn side(&self, side: LocalSide) -> i64
        requires state { IsState self.now }
        requires side { SideFits (variables_in self.now) side }
        ensures { result ≡ side_in self.now side }
    {
        match side {
            LocalSide::Number(value) => value,
            LocalSide::Variable(variable) => self.value(variable),
        }
    }
}

/// Whether the comparison holds between the two values.
fn compares(compare: Compare, left: i64, right: i64) -> bool
    ensures { result ≡ compares_of (relation_of compare) left right }
{
    match compare {
        Compare::Eq => left == right,
        Compare::Ne => left != right,
        Compare::Lt => left < right,
        Compare::Le => left <= right,
        Compare::Gt => left > right,
        Compare::Ge => left >= right,
    }
}

/// Whether the expression is true in the state.
#[cycle(truth)]
#[tactic(auto, using(rctl_parts::proofs::Rules::exprs))]
pub fn holds(expr: &LocalExpr, at: &StateAt<'_>) -> bool
    requires state { IsState at.now }
    requires readable { IsReadableIn at.now (expr_of expr.now) }
    ensures { result ≡ truth_in at.now (expr_of expr.now) }
{
    match expr {
        LocalExpr::Truth(value) => *value,
        LocalExpr::Compare {
            left,
            compare,
            side,
        } => compares(*compare, at.value(*left), at.side(*side)),
        LocalExpr::Watch { watch } => at.watched(*watch),
        LocalExpr::Not(operand) => !holds(operand.get(), at),
        LocalExpr::And(members) => all_hold(members.as_slice(), at),
        LocalExpr::Or(members) => some_holds(members.as_slice(), at),
    }
}

/// Whether each of the expressions is true in the state.
#[cycle(truth)]
fn all_hold(members: &[LocalExpr], at: &StateAt<'_>) -> bool
    requires state { IsState at.now }
    requires readable { AreReadableIn at.now (exprs (map expr_of members.now)) }
    ensures { result ≡ all_true_in at.now (exprs (map expr_of members.now)) }
{
    for member in members {
        if !holds(member, at) {
            return false;
        }
    }
    true
}

/// Whether one of the expressions is true in the state.
#[cycle(truth)]
fn some_holds(members: &[LocalExpr], at: &StateAt<'_>) -> bool
    requires state { IsState at.now }
    requires readable { AreReadableIn at.now (exprs (map expr_of members.now)) }
    ensures { result ≡ some_true_in at.now (exprs (map expr_of members.now)) }
{
    for member in members {
        if holds(member, at) {
            return true;
        }
    }
    false
}
