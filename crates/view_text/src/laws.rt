//! What the bounds of shown steps come to, and what is said of a goal.
ghost use Rattle.std.specs.Prelude.{◌≡◌, ◌≤◌, ℕ, Bool, nat_lt};
ghost use Rattle.view_text.specs.Laws.{UntiedAreTold, TransitIsOfTheRun};
ghost use Rattle.view_text.specs.Shown.{shown_above, kept_behind};

/// Of the first n events of a process those lie above the bound that have fewer kept ones behind
/// them, up to event n, than the limit.
pub fn the_last_kept_are_shown()
    ensures { (kept : ℕ → Bool) (limit n position : ℕ) → 1 ≤ position → position ≤ n
        → nat_lt (shown_above kept limit n) position
        ≡ nat_lt (kept_behind kept position n) limit }
{}

/// An event that is told of beside the end of a value is one of another process at the cut, and the
/// end didn't happen before it. Where none is told of, the end happened before each of these.
pub fn untied_events_are_told()
    ensures { UntiedAreTold }
{}

/// The messages in transit that are told of are those that the run has at the cut.
pub fn messages_in_transit_are_those_of_the_run()
    ensures { TransitIsOfTheRun }
{}
