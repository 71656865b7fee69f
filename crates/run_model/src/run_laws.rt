// Laws of logged runs.
ghost use Rattle.std.specs.Prelude.{◌≡◌, ℕ, ◌+◌, ◌≤◌, false, [], length, get_or};
ghost use Rattle.run_model.specs.Run.{Name, Process, Trace, Watches, clocks_of, run_of, process_at};
ghost use Rattle.run_model.specs.Run.{states_of, state_after};
ghost use Rattle.run_model.specs.Consistent.{IsOrder};
ghost use Rattle.run_model.specs.Meaning.{IsRun};

/// A trace whose clocks are those of an order is a run, whatever its watches are.
pub fn traces_are_runs()
    ensures { (trace : Trace) (watches : Watches) → IsOrder (clocks_of trace)
        → IsRun (run_of trace watches) }
{}

/// A process has one state more than events, and the state at a place is the state after so many
/// events.
pub fn states_by_events()
    ensures count { (p : Process) → length (states_of p) ≡ length p.events + 1 }
    ensures place { (p : Process) (a : ℕ) → a ≤ length p.events
        → get_or (states_of p) a [] ≡ state_after p a }
{}

/// Two lists of watches that answer alike over the states of each process make one run.
pub fn watches_by_their_answers()
    ensures { (trace : Trace) (watches others : Watches)
        → ((p : ℕ) (watch : Name) (a : ℕ)
        → get_or (watches watch (states_of (process_at trace p))) a false
        ≡ get_or (others watch (states_of (process_at trace p))) a false)
        → run_of trace watches ≡ run_of trace others }
{}
