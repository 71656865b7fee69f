//! The answer of a formula, by its disjuncts and by the conjunctions within their operators,
//! settled inside out.
//!
//! `answer_all` gives the truth of the formula at the initial cut, the slice of the smallest
//! sublattice that holds the cuts at which it is true, and for each part its truth there and the
//! slice of its operand (clause `answer`), for every number of workers, each gate, and whatever
//! rows it begins from. The rows of each conjunction are the least cuts at which its parts are
//! true; for a conjunction of atoms they are the least closed vectors of its system, begun from its
//! rows of before and settled by steps on a shared table, but for rows of before that have a cut;
//! and one worker takes at most the steps of `specs/Counting.antt` (clause `settles`). What was
//! observed has one answer (`one_answer`), and the rows of before may be begun from once more was
//! observed (`settled_rows_are_kept`).
//!
//! Conjunctions of atoms, and those whose operators are all EX, begin with the order's pulls. The
//! first of them makes their system, and each leaves it to the next in the round. From the second
//! answer on it is kept, and the next answer grows it (`Kept`).
//!
//! A difference of counters is an atom. Its pulls say what it means where neither counter ever
//! falls, which the caller has to show (clause `counters`; `counters_are_kept` hands it on). EX
//! asks by the slice of its operand and has none of its own: a cut that is closed under its pulls
//! need not be consistent, so a conjunction whose operators are all EX begins with the order's
//! pulls.
//!
//! Nothing is said of the time or the memory that a call takes, nor of the steps of several
//! workers.
#![tactic(auto)]

mod answer;
mod atom;
mod conjunction;
mod disjuncts;
mod floors;
mod gathered;
mod kinds;
mod laws;
mod means;
mod operator;
mod round;
mod settling;
mod systems;

pub use answer::{Answer, PartAnswer};
pub use disjuncts::answer_all;
pub use laws::{counters_are_kept, one_answer, rows_with_a_cut_are_final, settled_rows_are_kept};
pub use means::Means;
pub use round::{Kept, Round};
