//! What a run tells its caller.
ghost use Rattle.std.specs.Prelude.{◌≡◌};
ghost use Rattle.batch_answers.specs.Outcome.{fault_of, faulty_outcome, outcome_of};

use call_promise::Outcome;
use fault_line::Fault;
use log_answers::{Stop, StopCause, Verdict};
use pota_base::Status;

// Why a log has no verdict, as it is told.
fn fault_of(cause: StopCause) -> Fault
    ensures { result ≡ fault_of cause }
{
    match cause {
        StopCause::Refused(refusal) => Fault::of_refusal(refusal),
        StopCause::Read => Fault::Read,
        StopCause::Write => Fault::Write,
        StopCause::Memory => Fault::Memory,
    }
}

/// A run that gave no verdict, with how many batches were closed without a fault before.
pub fn faulty(batches: u32, fault: Fault) -> Outcome
    ensures { result ≡ faulty_outcome batches fault }
{
    Outcome {
        status: fault.status(),
        batches,
        fault: Some(fault),
    }
}

/// How a run ended that led to this.
pub fn outcome_of(ended: Result<Verdict, Stop>) -> Outcome
    ensures { result ≡ outcome_of ended }
{
    match ended {
        Ok(verdict) => Outcome {
            status: if verdict.truth {
                Status::True
            } else {
                Status::False
            },
            batches: verdict.batches,
            fault: None,
        },
        Err(stop) => faulty(stop.batches, fault_of(stop.cause)),
    }
}
