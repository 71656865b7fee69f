ghost use Rattle.std.specs.Prelude.{◌≤◌, List, ℤ};
ghost use Rattle.watch.specs.Answering.{AnswerWhere, IsCalmAt};

use crate::predicate::{Watch, first_variable};

/// How many states in a row must agree.
const ENOUGH: u8 = 3;

/// True where the last three states, this one included, have the same first variable.
#[derive(Debug, Drop)]
pub struct Calm {
    first: i64,
    agreeing: u8,
    ghost few: { agreeing ≤ 3 },
}

impl Watch for Calm {
    ghost use Rattle.watch.specs.Sizes.{length-calm_from};
    ghost use Rattle.watch.specs.Answering.{calm_from};

    ghost answers = { λ c. calm_from c.agreeing c.first };

    ghost one_each = { λ c. length-calm_from c.agreeing c.first };

    fn feed(&mut self, state: &[i64]) -> bool {
        let first = first_variable(state);
        self.agreeing = if self.agreeing == 0 || first != self.first {
            1
        } else {
            (self.agreeing + 1).min(ENOUGH)
        };
        self.first = first;
        self.agreeing == ENOUGH
    }
}

impl Calm {
    /// No state was fed.
    pub fn new() -> Calm
        ensures { (states : List (List ℤ))
            → AnswerWhere states (IsCalmAt states) (⟦<Calm as Watch>⟧.answers result states) }
    {
        Calm {
            first: 0,
            agreeing: 0,
        }
    }
}
