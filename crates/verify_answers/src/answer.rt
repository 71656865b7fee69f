//! What the verifier answers.
ghost use Rattle.std.specs.Prelude.{◌≡◌};
ghost use Rattle.verify_answers.specs.Telling.{verified_as};

use fault_line::Fault;

/// What a log and its certificate are.
#[derive(Clone, Copy, Debug, PartialEq, Eq)]
pub enum Answer {
    /// The certificate is accepted, with this verdict.
    Accepted(bool),
    /// Its line of this number, from 1, is refused.
    Refused(u64),
    /// The words, the formula or the log have this fault, or something failed.
    Faulty(Fault),
}

/// What a run of the verifier tells its caller.
#[derive(Clone, Copy, Debug, PartialEq, Eq)]
pub struct Verified {
    /// 0 where the certificate is accepted, 1 where it is refused, else that of the fault, from 2
    /// to 7.
    pub status: u8,
    /// None exactly where the certificate is accepted or refused.
    pub fault: Option<Fault>,
}

impl Answer {
    /// What is told of it.
    pub fn verified(&self) -> Verified
        ensures { result ≡ verified_as self.now }
    {
        match self {
            Answer::Accepted(_) => Verified {
                status: 0,
                fault: None,
            },
            Answer::Refused(_) => Verified {
                status: 1,
                fault: None,
            },
            Answer::Faulty(fault) => Verified {
                status: fault.status().code(),
                fault: Some(*fault),
            },
        }
    }
}
