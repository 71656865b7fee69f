//! The first event in row order that passes a test.

ghost use Rattle.std.specs.Prelude.{◌≡◌, ℕ, ◌<◌, ◌≤◌, ◌↔◌, IsTrue, MatchOption};
ghost use Rattle.pota_base.specs.declared.shape.EventId.{EventId as EventIdOf};
ghost use Rattle.pota_base.specs.Shape.{HasEvent};
ghost use Rattle.run_model.specs.Cut.{lengths};
ghost use Rattle.run_model.specs.Witness.{Place, IsPlace, IsFirst};
ghost use Rattle.witness.specs.Views.{place_of};
ghost use Rattle.witness.specs.inside.Searches.{IsFirstOf};

use causal_order::Order;
use pota_base::EventId;

/// A test of events.
pub trait EventTest {
    ghost holds: { Self → Place → Type 0 };
    /// What the test of an event needs.
    ghost ready: { Self → EventIdOf → Type 0 };

    fn test(&self, event: EventId) -> bool
        requires { ready self.now event }
        ensures { IsTrue result ↔ holds self.now (place_of event) };
}

// The first of so many events of a process that passes.
fn first_of<T: EventTest>(test: &T, process: u32, len: u32) -> Option<EventId>
    requires { (e : EventIdOf) → e.process ≡ process → 0 < e.position → e.position ≤ len
        → T.ready test.now e }
    ensures { MatchOption result
        ((a : ℕ) → 0 < a → a ≤ len → T.holds test.now (record { process = process; position = a })
        → ⊥)
        (IsFirstOf (T.holds test.now) process len) }
{
    for before in 0..len {
        let event = EventId {
            process,
            position: before + 1,
        };
        if test.test(event) {
            return Some(event);
        }
    }
    None
}

/// The first event of the run that passes.
pub fn first_event<T: EventTest>(order: &Order, test: &T) -> Option<EventId>
    requires { (e : EventIdOf) → HasEvent (lengths order.now) e → T.ready test.now e }
    ensures { MatchOption result
        ((e : Place) → IsPlace order.now e → T.holds test.now e → ⊥)
        (λ e. IsFirst order.now (T.holds test.now) (place_of e)) }
{
    let shape = order.shape();
    for process in 0..shape.procs() {
        let first = first_of(test, process, shape.len_of(process));
        if first.is_some() {
            return first;
        }
    }
    None
}
