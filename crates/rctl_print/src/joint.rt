//! What stands between the members of an And or an Or, and which of them stand in brackets.
ghost use Rattle.std.specs.Prelude.{◌≡◌, map};
ghost use Rattle.rctl_grammar.specs.Shape.{shape_of};
ghost use Rattle.rctl_print.specs.Canonical.{is_amp, joint_text, encloses, needs_brackets};
ghost use Rattle.rctl_print.specs.Canonical.{truth_word};
ghost use Rattle.rctl_print.specs.inside.Members.{joined_of};

use rctl_grammar::Tree;

/// What stands between the members of an And, and between those of an Or.
#[derive(Clone, Copy)]
pub enum Joint {
    Amp,
    Bar,
}

impl Joint {
    pub fn text(self) -> &'static [u8]
        ensures { result.now ≡ joint_text self }
    {
        match self {
            Joint::Amp => b" & ",
            Joint::Bar => b" | ",
        }
    }

    fn is_amp(self) -> bool
        ensures { result ≡ is_amp self }
    {
        match self {
            Joint::Amp => true,
            Joint::Bar => false,
        }
    }

    /// The text of a conjunction or a disjunction without members.
    pub fn of_none(self) -> &'static [u8]
        ensures { result.now ≡ truth_word (is_amp self) }
    {
        match self {
            Joint::Amp => b"true",
            Joint::Bar => b"false",
        }
    }

    /// Whether brackets stand round what the inner joint joins where it is a member of what this
    /// one joins.
    fn encloses(self, inner: Joint) -> bool
        ensures { result ≡ encloses self inner }
    {
        match inner {
            Joint::Amp => self.is_amp(),
            Joint::Bar => true,
        }
    }

    /// Whether brackets stand round this member.
    #[cycle(brackets)]
    #[tactic(auto, using(crate::proofs::Rules::shapes))]
    pub fn needs_brackets(self, member: &Tree) -> bool
        ensures { result ≡ needs_brackets self (shape_of member.now) }
    {
        match member {
            Tree::And { members, .. } => self.needs_brackets_joined(members.as_slice(), Joint::Amp),
            Tree::Or { members, .. } => self.needs_brackets_joined(members.as_slice(), Joint::Bar),
            Tree::Leaf { .. } => false,
            Tree::Not { .. } => false,
            Tree::Temporal { .. } => false,
            Tree::Next { .. } => false,
            Tree::Until { .. } => false,
        }
    }

    /// Whether brackets stand round a member that itself has these members. One alone counts as
    /// that one.
    #[cycle(brackets)]
    fn needs_brackets_joined(self, members: &[Tree], inner: Joint) -> bool
        ensures { result ≡ needs_brackets self (joined_of inner (map shape_of members.now)) }
    {
        match members {
            [] => false,
            [only] => self.needs_brackets(only),
            _ => self.encloses(inner),
        }
    }
}
