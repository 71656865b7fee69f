ghost use Rattle.std.specs.Prelude.{◌≡◌, ◌≤◌, List, ℤ, [], length, All};
ghost use Rattle.pota_base.specs.Limits.{most_variables};
ghost use Rattle.watch.specs.Answering.{AnswerWhere, IsStableAt};

use crate::predicate::Watch;
use pota_base::MOST_VARIABLES;

/// True of the first state, and of each state whose values all equal those of the state before.
///
/// A process has at most 16 variables. Of a longer state the first 16 values are looked at.
#[derive(Debug, Drop)]
pub struct Stable {
    values: [i64; MOST_VARIABLES],
    len: usize,
    fed: bool,
    ghost few: { len ≤ most_variables },
}

impl Watch for Stable {
    ghost use Rattle.watch.specs.Sizes.{length-stable_from};
    ghost use Rattle.watch.specs.Answering.{stable_from, state_before};

    ghost answers = { λ s. stable_from (state_before s.fed s.len s.values) };

    ghost one_each = { λ s. length-stable_from (state_before s.fed s.len s.values) };

    fn feed(&mut self, state: &[i64]) -> bool {
        let len = state.len().min(MOST_VARIABLES);
        let kept = &state[..len];
        let unchanged = !self.fed || &self.values[..self.len] == kept;
        let mut values = [0; MOST_VARIABLES];
        values[..len].copy_from_slice(kept);
        self.values = values;
        self.len = len;
        self.fed = true;
        unchanged
    }
}

impl Stable {
    /// No state was fed.
    pub fn new() -> Stable
        ensures { (states : List (List ℤ)) → All (λ state. length state ≤ most_variables) states
            → AnswerWhere states (IsStableAt states) (⟦<Stable as Watch>⟧.answers result states) }
    {
        Stable {
            values: [0; MOST_VARIABLES],
            len: 0,
            fed: false,
        }
    }
}
