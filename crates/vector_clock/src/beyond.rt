//! Clocks compared count by count.
ghost use Rattle.std.specs.Prelude.{◌≡◌, ℕ, ◌<◌, ◌≤◌, max, length, IsTrue};
ghost use Rattle.run_model.specs.Cut.{count};
ghost use Rattle.vector_clock.specs.Events.{is_beyond as has_a_greater_count};

/// Whether some count of `first` is greater than that of `second`.
pub fn is_beyond(first: &[u32], second: &[u32]) -> bool
    requires { length second.now ≡ length first.now }
    ensures { result ≡ has_a_greater_count first.now second.now }
{
    let mut beyond = false;
    // To its end in each case, so that the loop has no exit within.
    for j in 0..first.len() {
        if second[j] < first[j] {
            beyond = true;
        }
    }
    beyond
}

// Whether both have the same counts from one place on, before another one.
fn are_same_in(first: &[u32], second: &[u32], start: usize, end: usize) -> bool
    requires first { end ≤ length first.now }
    requires second { end ≤ length second.now }
    ensures { IsTrue result → (j : ℕ) → start ≤ j → j < end
        → count second.now j ≡ count first.now j }
{
    let mut differ = false;
    // To its end in each case, so that the loop has no exit within.
    for j in start..end {
        if first[j] != second[j] {
            differ = true;
        }
    }
    !differ
}

/// Whether both have the same counts, but maybe at one place.
pub fn are_same_but(first: &[u32], second: &[u32], place: usize) -> bool
    requires length { length second.now ≡ length first.now }
    requires place { place < length first.now }
    ensures { IsTrue result → (j : ℕ) → (j ≡ place → ⊥)
        → count second.now j ≡ count first.now j }
{
    are_same_in(first, second, 0, place) && are_same_in(first, second, place + 1, first.len())
}

// Whether each count of `clock` from one place on, before another one, is the greater one of the
// two others.
fn is_join_in(first: &[u32], second: &[u32], clock: &[u32], start: usize, end: usize) -> bool
    requires first { end ≤ length first.now }
    requires second { end ≤ length second.now }
    requires clock { end ≤ length clock.now }
    ensures { IsTrue result → (j : ℕ) → start ≤ j → j < end
        → count clock.now j ≡ max (count first.now j) (count second.now j) }
{
    let mut differ = false;
    // To its end in each case, so that the loop has no exit within.
    for j in start..end {
        if first[j].max(second[j]) != clock[j] {
            differ = true;
        }
    }
    !differ
}

/// Whether each count of `clock` is the greater one of the two others, but maybe at one place.
pub fn is_join_but(first: &[u32], second: &[u32], clock: &[u32], place: usize) -> bool
    requires first { length first.now ≡ length clock.now }
    requires second { length second.now ≡ length clock.now }
    requires place { place < length clock.now }
    ensures { IsTrue result → (j : ℕ) → (j ≡ place → ⊥)
        → count clock.now j ≡ max (count first.now j) (count second.now j) }
{
    is_join_in(first, second, clock, 0, place)
        && is_join_in(first, second, clock, place + 1, clock.len())
}
