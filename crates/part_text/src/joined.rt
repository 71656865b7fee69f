//! What stands between members, and which of them stand in brackets.
ghost use Rattle.part_text.specs.inside.Members.{joint_of};
ghost use Rattle.rctl_print.specs.Canonical.{encloses, is_amp, joint_text, truth_word};
ghost use Rattle.std.specs.Prelude.{◌≡◌};

/// Whether all of some members are asked, or any.
#[derive(Clone, Copy)]
pub enum Joined {
    All,
    Any,
}

impl Joined {
    pub fn text(self) -> &'static [u8]
        ensures { result.now ≡ joint_text (joint_of self) }
    {
        match self {
            Joined::All => b" & ",
            Joined::Any => b" | ",
        }
    }

    /// The text where there is no member.
    pub fn of_none(self) -> &'static [u8]
        ensures { result.now ≡ truth_word (is_amp (joint_of self)) }
    {
        match self {
            Joined::All => b"true",
            Joined::Any => b"false",
        }
    }

    /// Whether brackets stand round what `inner` joins where it is a member of what this joins.
    pub fn encloses(self, inner: Joined) -> bool
        ensures { result ≡ encloses (joint_of self) (joint_of inner) }
    {
        match (self, inner) {
            (Joined::Any, Joined::All) => false,
            _ => true,
        }
    }
}
