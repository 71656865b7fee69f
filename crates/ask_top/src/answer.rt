//! What a call comes to: an answer, or why there is none.
ghost use Rattle.ask_top.specs.Answers.{answer_status};
ghost use Rattle.std.specs.Prelude.{◌≡◌};

use ask_faults::Fault;

/// What the questions of a call come to.
#[derive(Debug, Drop)]
pub enum Answer {
    /// Each question holds.
    Holds,
    /// Some question doesn't.
    Fails,
    /// There is no answer.
    Without(Fault),
}

impl Answer {
    /// The exit status: 0 where each question holds, 1 where some doesn't, and else the fault's.
    pub fn status(&self) -> u8
        ensures { result ≡ answer_status self.now }
    {
        match self {
            Answer::Holds => 0,
            Answer::Fails => 1,
            Answer::Without(fault) => fault.status(),
        }
    }
}
