//! Questions whose formulas are observed together: one list of the disjuncts of all, and the range
//! of each question in it.
//!
//! `AskedList::add` puts the disjuncts of a question behind those of the others (`adds`), or
//! answers that they would be too many (`fault`): all disjuncts of the list are observed as those
//! of one formula. `ask_each` puts the operators of its form over each disjunct, once they have
//! numbers (`asked_each`). Laws: a question keeps its range (`ranges_stay`), in it stands what its
//! form asks of its own disjuncts, and the asked disjuncts are made for what the given ones are
//! made for (`ranges_are_asked`).
//!
//! Not said here: that memory suffices.
#![tactic(auto)]

mod asking;
mod count;
mod laws;
mod list;

pub use asking::ask_each;
pub use laws::{ranges_are_asked, ranges_stay};
pub use list::{AskedList, AskedRange, Listed, TooMany};
