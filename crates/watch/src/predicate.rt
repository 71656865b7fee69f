ghost use Rattle.std.specs.Prelude.{◌≡◌, ◌∷◌, List, ℤ, Bool, length};
ghost use Rattle.watch.specs.Answering.{first_variable as first_of};

use pota_names::Name;

/// A local predicate of the user's own, with a state of its own. It is fed the states of one
/// process in their order, each as the values of the process's variables in the order of the
/// header, and answers each.
pub trait Watch: Drop {
    /// One truth value for each of the states, if they are fed in this order.
    ghost answers: { Self → List (List ℤ) → List Bool };

    /// Whether the predicate is true of this state, behind those that were fed before.
    fn feed(&mut self, state: &[i64]) -> bool
        ensures { (rest : List (List ℤ))
            → answers self.old (state.now ∷ rest) ≡ result ∷ answers self.new rest };

    ghost one_each: { (watch : Self) (states : List (List ℤ))
        → length (answers watch states) ≡ length states };
}

/// A watch under the name that formulas call it by.
#[derive(Drop)]
pub struct Handed {
    pub name: Name,
    pub watch: Box<dyn Watch + Send>,
}

/// Feeds one state to the watch in the box.
pub fn feed_one(watch: &mut Box<dyn Watch + Send>, state: &[i64]) -> bool
    ensures { (rest : List (List ℤ))
        → answers watch.old (state.now ∷ rest) ≡ result ∷ answers watch.new rest }
{
    watch.feed(state)
}

/// The first variable of a state, and 0 where the process has none.
pub(crate) fn first_variable(state: &[i64]) -> i64
    ensures { result ≡ first_of state.now }
{
    match state {
        [] => 0,
        [first, ..] => *first,
    }
}
