//! What pins the definitions down, as contracts of functions that do nothing.
ghost use Rattle.std.specs.Prelude.{◌≡◌};
ghost use Rattle.trace_gen.specs.Words.{first_state, next_state, word};

/// The first state of seed 42, and the words that are drawn there and at the next state.
pub fn first_words_of_a_seed()
    ensures state { first_state 42 ≡ 1753877967969059832 }
    ensures first { word (first_state 42) ≡ 0xa15c02b7 }
    ensures second { word (next_state (first_state 42)) ≡ 0x7b47f409 }
{}
