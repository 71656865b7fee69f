//! Laws on channels. The functions do nothing.
ghost use Rattle.std.specs.Prelude.{ℕ};
ghost use Rattle.event_log.specs.States.{StatesView};
ghost use Rattle.pull_system.specs.Growth.{PullGrows};
ghost use Rattle.channel_preds.specs.Channels.{channel_of, at_most_pull, at_least_pull};
ghost use Rattle.channel_preds.specs.Truth.{HasMoreEvents, lens_of};
ghost use Rattle.channel_preds.specs.Laws.{AtLeastHoldsWhereTrue, AtMostHoldsWhereTrue};

/// At a consistent cut the pulls of a bound hold exactly where the bound is true.
///
/// The lower bound needs that no message is received that was not sent: clocks alone don't say so.
pub fn bounds_hold_where_they_are_true()
    ensures at_most { AtMostHoldsWhereTrue }
    ensures at_least { AtLeastHoldsWhereTrue }
{}

/// When more events come, a pull of a channel asks for no less at each position, past the last one
/// too.
pub fn channel_pulls_grow()
    ensures at_most { (before after : StatesView) (p q k : ℕ) → HasMoreEvents before after
        → PullGrows (lens_of before) (lens_of after)
        (at_most_pull (channel_of before p q) k) (at_most_pull (channel_of after p q) k) }
    ensures at_least { (before after : StatesView) (p q k : ℕ) → HasMoreEvents before after
        → PullGrows (lens_of before) (lens_of after)
        (at_least_pull (channel_of before p q) k) (at_least_pull (channel_of after p q) k) }
{}
