// Laws of EF, AG, EG and EX over a closed set of cuts (Sen and Garg): what they make is closed, and
// what EF, AG and EG make has a slice made from the set's slice.
ghost use Rattle.std.specs.Prelude.{◌≡◌, ℕ, ◌<◌, ◌≤◌, ◌↔◌};
ghost use Rattle.run_model.specs.Cut.{Cut, Clocks, count, IsWithin, lengths};
ghost use Rattle.run_model.specs.Consistent.{IsOrder, IsEvent, IsConsistent};
ghost use Rattle.run_model.specs.Sublattice.{IsSublattice, IsLeast, IsGreatest};
ghost use Rattle.run_model.specs.Slice.{Slice, StandsFor};
ghost use Rattle.run_model.specs.Operators.{EfHolds, AgHolds, EgHolds, ExHolds, AgHoldsByRows};
ghost use Rattle.run_model.specs.Operators.{HasPairs, whole, nowhere, lowered, raised};

use crate::sublattice_laws::SetOfCuts;

/// EF: the cuts within the greatest member.
pub fn some_time<A: SetOfCuts>()
    ensures within_the_greatest { (o : Clocks) → IsOrder o → IsSublattice o A.has → (t : Cut)
        → IsGreatest A.has t → (c : Cut) → IsConsistent o c → EfHolds o A.has c ↔ IsWithin c t }
    ensures closed { (o : Clocks) → IsOrder o → IsSublattice o A.has
        → IsSublattice o (λ c. IsConsistent o c × EfHolds o A.has c) }
    ensures slice { (o : Clocks) → IsOrder o → IsSublattice o A.has → (t : Cut) → IsGreatest A.has t
        → StandsFor o (lowered (whole o) t) (λ c. IsConsistent o c × EfHolds o A.has c) }
    ensures empty { (o : Clocks) → ((c : Cut) → A.has c → ⊥)
        → StandsFor o nowhere (λ c. IsConsistent o c × EfHolds o A.has c) }
{}

/// AG: the cuts that hold the least one at which the rows say so.
pub fn each_time<A: SetOfCuts>()
    ensures by_rows { (o : Clocks) → IsOrder o → IsSublattice o A.has → (s : Slice)
        → StandsFor o s A.has → (c : Cut) → IsConsistent o c → AgHolds o A.has c
        ↔ AgHoldsByRows o s c }
    ensures closed { (o : Clocks) → IsOrder o → IsSublattice o A.has
        → IsSublattice o (λ c. IsConsistent o c × AgHolds o A.has c) }
    ensures slice { (o : Clocks) → IsOrder o → IsSublattice o A.has → (s : Slice)
        → StandsFor o s A.has → (b : Cut) → IsLeast (λ c. IsConsistent o c × AgHoldsByRows o s c) b
        → StandsFor o (raised (whole o) b) (λ c. IsConsistent o c × AgHolds o A.has c) }
    ensures empty { (o : Clocks) → IsOrder o → (A.has (lengths o) → ⊥)
        → StandsFor o nowhere (λ c. IsConsistent o c × AgHolds o A.has c) }
{}

/// EG: the members that have each event that shares its row with another.
pub fn staying<A: SetOfCuts>()
    ensures by_rows { (o : Clocks) → IsSublattice o A.has → (s : Slice) → StandsFor o s A.has
        → A.has (lengths o) → (c : Cut) → EgHolds o A.has c ↔ (A.has c × HasPairs o s c) }
    ensures closed { (o : Clocks) → IsOrder o → IsSublattice o A.has
        → IsSublattice o (λ c. IsConsistent o c × EgHolds o A.has c) }
    ensures slice { (o : Clocks) → IsSublattice o A.has → (s : Slice) → StandsFor o s A.has
        → A.has (lengths o) → (b : Cut) → IsLeast (λ c. A.has c × HasPairs o s c) b
        → StandsFor o (raised s b) (λ c. IsConsistent o c × EgHolds o A.has c) }
    ensures empty { (o : Clocks) → (A.has (lengths o) → ⊥)
        → StandsFor o nowhere (λ c. IsConsistent o c × EgHolds o A.has c) }
    ensures refuted_by_a_pair { (o : Clocks) (i a j b : ℕ) → IsEvent (lengths o) i a
        → IsEvent (lengths o) j b → ((i ≡ j) × (a ≡ b) → ⊥)
        → ((c : Cut) → A.has c → (a ≤ count c i) ↔ (b ≤ count c j)) → (c : Cut) → count c i < a
        → EgHolds o A.has c → ⊥ }
{}

/// EX of a process: closed, like the others. It needs no slice of its own.
pub fn next_time<A: SetOfCuts>()
    ensures { (o : Clocks) → IsOrder o → IsSublattice o A.has → (i : ℕ)
        → IsSublattice o (λ c. IsConsistent o c × ExHolds o i A.has c) }
{}
