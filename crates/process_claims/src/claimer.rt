//! What a caller holds, and the rule that each of its steps keeps.
ghost use Rattle.process_claims.specs.Claims.{ClaimsHold};
ghost use Rattle.process_claims.specs.inside.Claims.{Swapped, opened, claimless, together};

use atomic_table::{Join, Play, Split, TableRule};
use std::collections::LinkedList;
use std::marker::Model;

/// What a caller knows: the processes that it claims, and those that it saw taken. No value of it
/// is made.
pub(crate) struct SeenClaims {
    claims: LinkedList<u32>,
    marks: LinkedList<u32>,
}

/// A caller's hold on claims. Contracts see whose it is, the processes that it claims, and those
/// that it saw taken. It takes no bytes.
#[derive(Drop)]
pub struct Claimer {
    pub(crate) token: atomic_table::Seat<(), SeenClaims>,
}

impl Model for Claimer {
    ghost use Rattle.std.specs.Prelude.{◌≡◌, []};
    ghost use Rattle.process_claims.specs.Views.{ClaimerView};

    ghost Value = { ClaimerView };

    ghost view = { λ claimer. record {
      table = claimer.token.table_id;
      claims = claimer.token.me.0.claims;
      marks =
          claimer.token.me.0.marks;
    } };

    ghost invariant = { λ claimer. claimer.token.me.1 ≡ [] };
}

pub(crate) struct Ruled;

impl TableRule<(), SeenClaims, u32> for Ruled {
    ghost holds = { λ count. ClaimsHold count };

    ghost first = { λ count. opened };
}

/// A swap of 1 into the word of a process.
pub(crate) struct Swaps;

impl Play<(), SeenClaims> for Swaps {
    ghost then = { Swapped };
}

/// A second caller that claims nothing, and has seen what the first knows to be taken.
pub(crate) struct Parts;

impl Split<SeenClaims> for Parts {
    ghost left = { λ v. v };

    ghost right = { claimless };
}

/// One caller that claims and has seen what both did.
pub(crate) struct Meets;

impl Join<SeenClaims> for Meets {
    ghost both = { together };

    ghost spent = { opened };
}
