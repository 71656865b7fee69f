//! Laws on answers. The functions do nothing.
ghost use Rattle.std.specs.Prelude.{◌≡◌, List, length};
ghost use Rattle.trace_growth.specs.Growing.{IsTrace};
ghost use Rattle.rctl_parts.specs.Pieces.{Piece};
ghost use Rattle.part_pulls.specs.declared.observed.Observed.{Observed};
ghost use Rattle.part_pulls.specs.Later.{IsLater};
ghost use Rattle.conjunctions.specs.declared.answer.Answer.{Answer};
ghost use Rattle.conjunctions.specs.declared.round.Kept.{Kept};
ghost use Rattle.conjunctions.specs.Answering.{IsAnswer};
ghost use Rattle.watch.specs.Saying.{said_by};
ghost use Rattle.observation.specs.Growing.{GrowingView};
ghost use Rattle.answering.specs.OneTrace.{IsOneTrace};
ghost use Rattle.answering.specs.Going.{GoesOn};

use conjunctions::one_answer;
use watch::{Handed, Watch};

/// The answer is that of a fresh start with the same watches on all events so far, but for the
/// number of batches.
pub fn a_fresh_start_answers_the_same(watches: &Vec<Handed>)
    ensures { (here there : _) (one other : Observed)
        → IsOneTrace (said_by answers) watches.now.items here there one other
        → length watches.now.items ≡ length one.watch_process → IsTrace one.trace.states
        → (ds : List (List Piece)) (a b : Answer) → IsAnswer one ds a → IsAnswer other ds b
        → record a { batch = b.batch } ≡ b }
{
    let _watches = watches;
    one_answer();
}

/// What is kept of an answer goes on with all that is observed later for the same formula.
pub fn what_goes_on_goes_on_later()
    ensures { (kept : Kept) (before after : GrowingView) → after.disjuncts ≡ before.disjuncts
        → IsLater before.seen after.seen → GoesOn kept before → GoesOn kept after }
{}
