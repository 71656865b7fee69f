//! The watches that each run hands in.
ghost use Rattle.std.specs.Prelude.{◌≡◌, ◌++◌, ◌∷◌, [], OnOk, IsTrue};
ghost use Rattle.pota_names.specs.Names.{is_name};
ghost use Rattle.row_cases.specs.inside.Handing.{names_of};

use pota_names::Name;
use std::alloc::{AllocError, Global};
use watch::{Handed, Watch};

/// Hands in one watch more, under this name.
pub fn hand(
    alloc: Global,
    watches: &mut Vec<Handed>,
    name: &[u8],
    watch: Box<dyn Watch + Send>,
) -> Result<(), AllocError>
    requires { IsTrue (is_name name.now) }
    ensures { OnOk result
        (names_of watches.new.items ≡ names_of watches.old.items ++ name.now ∷ []) }
{
    let name = match Name::new(alloc, name) {
        Ok(Some(name)) => name,
        Ok(None) => unreachable!(),
        Err(_) => return Err(AllocError),
    };
    watches.push(Handed { name, watch })?;
    Ok(())
}
