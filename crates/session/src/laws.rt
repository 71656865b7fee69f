//! A law on sessions. The function does nothing.
ghost use Rattle.watch.specs.Saying.{said_by};
ghost use Rattle.session.specs.Halves.{GoesAsItsHalves};

use answering::a_fresh_start_answers_the_same;
use watch::{Handed, Watch};

/// A session is its halves in a row. What comes of a batch in a session comes of it in an
/// observation that has observed the same, and an answering that is lent it then: the same answer,
/// or the same fault. Behind it both have observed the same, so it goes on batch by batch.
pub fn a_session_is_its_halves_in_a_row(watches: &Vec<Handed>)
    ensures { GoesAsItsHalves (said_by answers) watches.now.items }
{
    let _watches = watches;
    a_fresh_start_answers_the_same(watches);
}
