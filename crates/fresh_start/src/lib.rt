// A fresh start: the events of all batches that came so far may be given to a fresh trace, or to a
// fresh observation, as one batch. It fits and has no fault, of clocks and messages or of counters,
// and the states are the same (`a_fresh_start_takes_all`). So the answer after each batch is that
// of a fresh start on all events so far (`a_fresh_observation_answers_the_same`).
//
// Not said here: want of memory.
#![tactic(auto)]

ghost use Rattle.fresh_start.specs.Taken.{AFreshTraceTakesThemAsOne, AndComesToTheSameStates};
ghost use Rattle.fresh_start.specs.Observed.{AFreshObservationTakesThemAsOne, AndAnswersTheSame};
ghost use Rattle.watch.specs.Saying.{said_by};

use answering::a_fresh_start_answers_the_same;
use watch::{Handed, Watch};

/// A fresh trace takes all batches as one, whether their clocks were left out or not.
pub fn a_fresh_start_takes_all()
    ensures takes { AFreshTraceTakesThemAsOne }
    ensures states { AndComesToTheSameStates }
{}

/// A fresh observation with the same watches takes all batches as one, and has the same answer but
/// for the number of batches.
pub fn a_fresh_observation_answers_the_same(watches: &Vec<Handed>)
    ensures takes { AFreshObservationTakesThemAsOne (said_by answers) watches.now.items }
    ensures answers { AndAnswersTheSame (said_by answers) watches.now.items }
{
    a_fresh_start_answers_the_same(watches);
}
