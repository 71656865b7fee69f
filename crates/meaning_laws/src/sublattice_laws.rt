// Laws of the smallest sublattice, each for every set: a function is generic over the set.
ghost use Rattle.std.specs.Prelude.{◌↔◌};
ghost use Rattle.run_model.specs.Cut.{Cut, Clocks};
ghost use Rattle.run_model.specs.Consistent.{IsOrder, IsConsistent};
ghost use Rattle.run_model.specs.Sublattice.{IsSublattice, Smallest, Either, IsMaxOfMins};

/// A set of cuts. A proof that wants a law for a set of its own cites the law's lemma in `proofs/`,
/// which is for every set.
pub trait SetOfCuts {
    ghost has: { Cut → Type 0 };
}

/// The smallest sublattice round a set of consistent cuts (Mittal and Garg).
pub fn smallest_sublattice<A: SetOfCuts, B: SetOfCuts>()
    ensures closed { (o : Clocks) → IsOrder o → ((c : Cut) → A.has c → IsConsistent o c)
        → IsSublattice o (Smallest A.has) }
    ensures holds_the_set { (c : Cut) → A.has c → Smallest A.has c }
    ensures lies_in_closed_sets { (o : Clocks) → IsSublattice o B.has
        → ((c : Cut) → A.has c → B.has c) → (c : Cut) → Smallest A.has c → B.has c }
    ensures of_a_closed_set { (o : Clocks) → IsSublattice o A.has → (c : Cut) → Smallest A.has c
        ↔ A.has c }
    ensures as_lists { (c : Cut) → Smallest A.has c ↔ IsMaxOfMins A.has c }
{}

/// In which grouping the sets of a union are taken says nothing.
pub fn unions_group<A: SetOfCuts, B: SetOfCuts, D: SetOfCuts>()
    ensures { (c : Cut) → Smallest (Either (Smallest (Either A.has B.has)) D.has) c
        ↔ Smallest (Either A.has (Smallest (Either B.has D.has))) c }
{}
