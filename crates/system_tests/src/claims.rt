ghost use Rattle.std.specs.Prelude.{◌≡◌};

use pota_base::NoMemory;
use process_claims::{Claimer, Claims};
use std::process::Abort;

/// That of the two processes the claimer may claim these or not, one after the other.
fn claim(rt: &impl Abort, claims: &Claims, claimer: &mut Claimer, expected: &[(u32, bool)])
    requires fits { claimer.old.table ≡ claims.now }
    requires two { claims.now.words ≡ 2 }
    ensures { claimer.new.table ≡ claimer.old.table }
{
    'claims: for &(process, free) in expected {
        assert!(rt; process < 2 && claims.claim(claimer, process) == free);
    }
}

#[test]
fn each_process_is_claimed_once(rt: HostRuntime) -> Result<(), NoMemory> {
    let (claims, mut first) = Claims::new(rt.alloc(), 2)?;
    let mut second = claims.split(&mut first);
    claim(&rt, &claims, &mut first, &[(0, true)]);
    claim(&rt, &claims, &mut second, &[(0, false), (1, true)]);
    claims.meet(&mut first, second);
    claim(&rt, &claims, &mut first, &[(0, false), (1, false)]);
    Ok(())
}
