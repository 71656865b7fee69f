//! One instance after the other.
ghost use Rattle.instance_outcomes.specs.Tallies.{IsTallyOf, fails, has_nowhere};
ghost use Rattle.instance_outcomes.specs.declared.tallied.Answered.{Answered as AnsweredIs};
ghost use Rattle.instance_outcomes.specs.inside.Lists.{shown_of};
ghost use Rattle.std.specs.Prelude.{◌≡◌, ◌+◌, ◌++◌, ◌∷◌, ◌<◌, ◌≤◌, [], List};
ghost use Rattle.std.specs.Prelude.{if◌then◌else◌};
ghost use Rattle.pota_base.specs.Limits.{most_instances};

use crate::tallied::{Answered, Tally};

// Whether the instance fails.
fn fails(answered: &Answered) -> bool
    ensures { result ≡ fails answered.now }
{
    !answered.outcome.holds
}

// Whether some part of it holds nowhere.
fn has_nowhere(answered: &Answered) -> bool
    ensures { result ≡ has_nowhere answered.now }
{
    answered.outcome.nowhere.len() != 0
}

// Which of two instances is shown, of which the first is shown of all before.
fn shown_of(shown: Option<Answered>, next: Answered) -> Option<Answered>
    ensures { result ≡ shown_of shown next }
{
    let Some(before) = shown else {
        return Some(next);
    };
    if !fails(&before) && fails(&next) {
        drop(before);
        return Some(next);
    }
    drop(next);
    Some(before)
}

// The count, with one more where there is.
fn counted(count: u32, more: bool) -> u32
    requires { count < most_instances }
    ensures { result ≡ (if more then count + 1 else count) }
{
    if more { count + 1 } else { count }
}

// The tally of no instance.
pub fn no_tally() -> Tally
    ensures { IsTallyOf [] result }
{
    Tally {
        asked: 0,
        fails: 0,
        nowhere: 0,
        shown: None,
    }
}

// The tally with one instance more.
pub fn with(tally: Tally, next: Answered) -> Tally
    requires few { tally.asked < most_instances }
    requires fails { tally.fails ≤ tally.asked }
    requires nowhere { tally.nowhere ≤ tally.asked }
    ensures { (before : List AnsweredIs) → IsTallyOf before tally
        → IsTallyOf (before ++ next ∷ []) result }
{
    let Tally {
        asked,
        fails: failing,
        nowhere,
        shown,
    } = tally;
    let failing = counted(failing, fails(&next));
    let nowhere = counted(nowhere, has_nowhere(&next));
    Tally {
        asked: asked + 1,
        fails: failing,
        nowhere,
        shown: shown_of(shown, next),
    }
}
