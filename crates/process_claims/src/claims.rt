ghost use Rattle.std.specs.Prelude.{◌≡◌, ◌+◌, ◌<◌, ◌≤◌, [], ◌∷◌, ◌++◌, true, false, IfOk};
ghost use Rattle.pota_base.specs.Limits.{most_processes};

use crate::claimer::{Claimer, Meets, Parts, Ruled, SeenClaims, Swaps};
use atomic_table::Table;
use pota_base::{MOST_PROCESSES, NoMemory};
use std::alloc::Global;
use std::marker::Model;

/// One word per process, 0 until a caller claims the process. Contracts see which table it is, and
/// its number of words.
#[derive(Drop)]
pub struct Claims {
    table: Table<(), SeenClaims, u32, Ruled, Global>,
}

impl Model for Claims {
    ghost use Rattle.std.specs.Prelude.{◌≡◌, ◌<◌};
    ghost use Rattle.atomic_table.specs.Seated.{TableId};

    ghost Value = { TableId };

    ghost view = { λ claims. claims.table.shared.table_id };

    ghost invariant = { λ claims. (claims.table.shared.key ≡ claims.table.shared.table_id.words)
        × (0 < claims.table.shared.table_id.words) };
}

impl Claims {
    /// The words of so many processes, of which none is claimed, and a first caller.
    pub fn new(alloc: Global, processes: u32) -> Result<(Claims, Claimer), NoMemory>
        requires some { 1 ≤ processes }
        requires few { processes ≤ most_processes }
        ensures words { IfOk result (λ pair. pair.0.words ≡ processes) }
        ensures claimer { IfOk result (λ pair. pair.1
            ≡ record { table = pair.0; claims = []; marks = [] }) }
    {
        let free = [0; MOST_PROCESSES];
        let (table, token) = Table::of_words(alloc, &free[..processes as usize], &processes)?;
        Ok((Claims { table }, Claimer { token }))
    }

    /// Claims the process, and is true, where this call finds it not taken. Where it finds it taken
    /// it is false.
    pub fn claim(&self, claimer: &mut Claimer, process: u32) -> bool
        requires fits { claimer.old.table ≡ self.now }
        requires process { process < self.now.words }
        ensures table { claimer.new.table ≡ claimer.old.table }
        ensures claimed { result ≡ true → (claimer.new.claims ≡ claimer.old.claims ++ process ∷ [])
            × (claimer.new.marks ≡ claimer.old.marks) }
        ensures taken { result ≡ false → (claimer.new.claims ≡ claimer.old.claims)
            × (claimer.new.marks ≡ claimer.old.marks ++ process ∷ []) }
    {
        let found = self
            .table
            .shared
            .swap::<Swaps>(&mut claimer.token, process as usize, 1);
        found == 0
    }

    /// A second caller, which claims nothing, and has seen taken what the first claims or has seen
    /// taken.
    pub fn split(&self, claimer: &mut Claimer) -> Claimer
        requires { claimer.old.table ≡ self.now }
        ensures same { claimer.new ≡ claimer.old }
        ensures table { result.table ≡ claimer.old.table }
        ensures claims { result.claims ≡ [] }
        ensures marks { result.marks ≡ claimer.old.marks ++ claimer.old.claims }
    {
        // The look opens the claims: the clauses rest on what their table has.
        let _ = &self.table;
        Claimer {
            token: self.table.shared.split_seat::<Parts>(&mut claimer.token),
        }
    }

    /// Gives the caller what the other claims and has seen taken.
    pub fn meet(&self, claimer: &mut Claimer, other: Claimer)
        requires fits { claimer.old.table ≡ self.now }
        requires other_fits { other.table ≡ self.now }
        ensures table { claimer.new.table ≡ claimer.old.table }
        ensures claims { claimer.new.claims ≡ claimer.old.claims ++ other.claims }
        ensures marks { claimer.new.marks ≡ claimer.old.marks ++ other.marks }
    {
        // The look opens the claims: the clauses rest on what their table has.
        let _ = &self.table;
        let Claimer { token } = other;
        self.table
            .shared
            .join_seat::<Meets>(&mut claimer.token, token);
    }
}
