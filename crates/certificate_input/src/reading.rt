//! A certificate that is read to the end of an input.

ghost use Rattle.std.specs.Prelude.{◌≡◌, ◌≢◌, None, IfOk, OnErr};
ghost use Rattle.certificate_text.specs.Taking.{VerifierView};
ghost use Rattle.pota_base.specs.Changes.{of_source};
ghost use Rattle.input_reading.specs.Intakes.{ReadsShort};
ghost use Rattle.certificate_input.specs.Telling.{Tells, IsFresh};
ghost use Rattle.certificate_input.specs.inside.Telling.{LeadsTo, IsRefused, bytes_left};

use crate::input::CertificateInput;
use crate::told::Told;
use input_reading::{End, IntakeFor, Turn, read_for};
use pota_base::{NoMemory, Source, Steps};
use std::alloc::Global;
use std::sync::ledger::Ledger;
use verifier::{Takes, Verifier};

/// A certificate whose bytes come, the count of the steps that its lines take, and the number of
/// the line that is refused.
#[derive(Drop)]
struct Reading<'a, N: Takes, L: Ledger> {
    input: CertificateInput<N>,
    steps: &'a mut Steps<L>,
    refused: Option<u64>,
}

impl<'a, N: Takes, L: Ledger> IntakeFor for Reading<'a, N, L> {
    ghost For = { VerifierView N };

    ghost open_for = { λ first r bytes. LeadsTo N.follows first bytes r.input × (r.refused ≡ None) };

    ghost done_for = { λ first r bytes. IsRefused N.follows first bytes r.refused };

    ghost room_for = { λ r. bytes_left r.input };

    fn take_for(&mut self, piece: &[u8]) -> Result<Turn, NoMemory> {
        self.refused = self.input.take(piece, self.steps)?;
        match self.refused {
            Some(_) => Ok(Turn::Done),
            None => Ok(Turn::More),
        }
    }
}

/// Tells of the certificate whose first bytes are these, and which the source has the rest of, to
/// its end. Nothing is read behind a failed read (`calm`), nor behind a refused line, which a test
/// holds.
///
/// # Errors
///
/// `NoMemory`.
pub fn read_certificate<N: Takes, S: Source, L: Ledger>(
    alloc: Global,
    verifier: Verifier<N>,
    front: &[u8],
    source: &mut S,
    steps: &mut Steps<L>,
) -> Result<Told, NoMemory>
    requires { IsFresh verifier }
    ensures tells { IfOk result (Tells N.follows (of_source S.Source source.old source.new) verifier
        front.now) }
    ensures short { OnErr result (ReadsShort (of_source S.Source source.old source.new)) }
    ensures calm { result ≢ Ok Told.Failed → S.faults source.new ≡ S.faults source.old }
{
    let mut input = CertificateInput::new(alloc, verifier);
    if let Some(line) = input.take(front, steps)? {
        return Ok(Told::Refused(line));
    }
    let mut reading = Reading {
        input,
        steps,
        refused: None,
    };
    match read_for(alloc, source, &mut reading)? {
        End::Ended => reading.input.finish(),
        End::Done => {
            let Some(line) = reading.refused else {
                unreachable!()
            };
            Ok(Told::Refused(line))
        }
        End::Failed => Ok(Told::Failed),
    }
}
