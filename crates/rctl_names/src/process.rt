ghost use Rattle.std.specs.Prelude.{◌≤◌, length};
ghost use Rattle.pota_base.specs.Limits.{most_variables};

use event_log::Binding;

/// A process by its number, and its variables.
#[derive(Drop)]
pub struct Process<'a> {
    pub number: u32,
    pub variables: &'a [Binding],
    ghost few: { length variables.now ≤ most_variables },
}
