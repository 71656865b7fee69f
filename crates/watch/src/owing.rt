ghost use Rattle.std.specs.Prelude.{List, ℤ};
ghost use Rattle.watch.specs.Answering.{AnswerWhere, IsOwingAt};

use crate::predicate::{Watch, first_variable};

/// True from a state with a negative first variable on, until one with a positive first variable.
#[derive(Debug, Drop)]
pub struct Owing {
    owing: bool,
}

impl Watch for Owing {
    ghost use Rattle.watch.specs.Sizes.{length-owing_from};
    ghost use Rattle.watch.specs.Answering.{owing_from};

    ghost answers = { λ o. owing_from o.owing };

    ghost one_each = { λ o. length-owing_from o.owing };

    fn feed(&mut self, state: &[i64]) -> bool {
        let first = first_variable(state);
        self.owing = first < 0 || self.owing && first == 0;
        self.owing
    }
}

impl Owing {
    /// No state was fed.
    pub fn new() -> Owing
        ensures { (states : List (List ℤ))
            → AnswerWhere states (IsOwingAt states) (⟦<Owing as Watch>⟧.answers result states) }
    {
        Owing { owing: false }
    }
}
