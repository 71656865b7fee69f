ghost use Rattle.std.specs.Prelude.{◌≡◌, ◌≤◌, length};

use pota_base::List;
use pota_names::Name;

/// The names of the watches, and the process that each one is on so far.
#[derive(Drop)]
pub struct Watches<'a> {
    pub names: &'a [Name],
    pub on: List<Option<u32>>,
    ghost few: { length names.now ≤ 8 },
    ghost paired: { length on ≡ length names.now },
}
