ghost use Rattle.std.specs.Prelude.{◌≡◌, ◌≤◌, ℕ, [], get_or, length};
ghost use Rattle.pota_base.specs.Limits.{most_processes, most_variables};

use event_log::Binding;
use pota_base::List;
use pota_names::Name;

/// The processes of a header and the variables of each, where a formula's names are looked up.
#[derive(Drop)]
pub struct Scope<'a> {
    pub processes: &'a [Name],
    pub variables: &'a [List<Binding>],
    ghost few: { length processes.now ≤ most_processes },
    ghost paired: { length variables.now ≡ length processes.now },
    ghost small: { (p : ℕ) → length (get_or variables.now p []) ≤ most_variables },
}
