//! What a log that is gone through is made of.
ghost use Rattle.std.specs.Prelude.{◌≡◌, option_copied};
ghost use Rattle.event_log.specs.declared.item.Item.{Item as ItemOf};
ghost use Rattle.event_log.specs.declared.item.Item.TheVariants as variants;
ghost use Rattle.torn_log.specs.Items.{event_in};

use event_log::{Event, Item};

/// A part of a log in its order: an item, or an event alone.
pub trait Part: Drop {
    /// The item that it is.
    ghost item: { Self → ItemOf };

    /// Its event, where it is one.
    fn event(&self) -> Option<&Event>
        ensures { option_copied result ≡ event_in (item self.now) };
}

impl Part for Item {
    ghost item = { λ i. i };

    fn event(&self) -> Option<&Event> {
        match self {
            Item::Event(event) => Some(event),
            Item::Header(_) => None,
            Item::BatchEnd => None,
            Item::End => None,
        }
    }
}

impl Part for Event {
    ghost item = { λ e. variants.Event e };

    fn event(&self) -> Option<&Event> {
        Some(self)
    }
}
