//! Canonical steps are justified, and come to an end. The functions do nothing.
ghost use Rattle.std.specs.Prelude.{ℕ, ◌<◌, ◌≤◌, sum, Option};
ghost use Rattle.certificate_table.specs.Begun.{AreCertified, BegunView, LastIsClosed, MayBegin};
ghost use Rattle.certificate_table.specs.Begun.{MayRaise, with_raise, with_row};
ghost use Rattle.certificate_raises.specs.Canonical.{IsFirstFailing, after_of, left_of};

/// The first pull that fails may raise the present row, and the next row may begin behind the row
/// that it canonically follows, once the present one is closed.
pub fn canonical_steps_are_justified()
    ensures raise { (v : BegunView) (k x : ℕ) → 0 < v.begun → IsFirstFailing v k x
        → MayRaise v k x }
    ensures row { (v : BegunView) → LastIsClosed v → v.begun ≤ sum v.system.lens
        → MayBegin v v.begun (after_of v.system.lens v.begun) }
{}

/// Behind a justified step fewer steps are left.
pub fn justified_steps_leave_fewer()
    ensures raise { (v : BegunView) → AreCertified v → (k x : ℕ) → MayRaise v k x
        → left_of (with_raise v k x) < left_of v }
    ensures row { (v : BegunView) (row : ℕ) (other : Option ℕ) → MayBegin v row other
        → left_of (with_row v row other) < left_of v }
{}
