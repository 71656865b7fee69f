//! A certificate that comes in pieces.

ghost use Rattle.std.specs.Prelude.{◌≡◌, ◌+◌, ◌^◌, ◌<◌, [], ◌∷◌, ◌++◌, None, IfOk};
ghost use Rattle.std.specs.Bool.{OnFalse, OnTrue};
ghost use Rattle.certificate_text.specs.Bytes.{HasNoFeed};
ghost use Rattle.verifier.specs.Checking.{IsChecked};
ghost use Rattle.certificate_input.specs.inside.Pieces.{IsReady, IsTaken, StaysInLine, IsOver};
ghost use Rattle.certificate_input.specs.Telling.{IsFresh};
ghost use Rattle.certificate_input.specs.inside.Telling.{IsEnd};

use crate::split::split_line;
use crate::told::Told;
use pota_base::{LONGEST_CERTIFICATE_LINE, NoMemory, Steps};
use std::alloc::Global;
use std::marker::Model;
use std::sync::ledger::Ledger;
use verifier::{Checked, Takes, Verifier};

/// The lines of a certificate so far, and the bytes of the next one. Behind a refused line, and
/// without memory, it is used no more.
#[derive(Debug, Drop)]
pub struct CertificateInput<N: Takes> {
    verifier: Verifier<N>,
    line: Vec<u8>,
    lines: u64,
    accepted: Option<bool>,
}

impl<N: Takes> Model for CertificateInput<N> {
    ghost use Rattle.certificate_input.specs.inside.Pieces.{InputView};

    ghost Value = { InputView N };

    ghost view = { λ input. record {
      text = input.verifier;
      line = input.line.items;
      lines = input.lines;
      accepted = input.accepted;
    } };
}

impl<N: Takes> CertificateInput<N> {
    /// No byte came yet. It takes no memory.
    pub fn new(alloc: Global, verifier: Verifier<N>) -> CertificateInput<N>
        requires { IsFresh verifier }
        ensures { result ≡ record { text = verifier; line = []; lines = 0; accepted = None } }
    {
        CertificateInput {
            verifier,
            line: Vec::new(alloc),
            lines: 0,
            accepted: None,
        }
    }

    // The number of the next line.
    fn number(&self) -> Result<u64, NoMemory>
        ensures next { IfOk result (λ number. number ≡ self.now.lines + 1) }
        ensures counted { IfOk result (λ number. number < 2 ^ 64) }
    {
        self.lines.checked_add(1).ok_or(NoMemory)
    }

    // Whether one of these bytes of a line is too many for it.
    fn is_over(&self, bytes: &[u8]) -> bool
        requires plain { HasNoFeed bytes.now }
        requires ready { IsReady self.now }
        ensures over { OnTrue result (IsOver N.follows self.now bytes.now) }
        ensures within { OnFalse result (StaysInLine N.follows self.now bytes.now) }
    {
        match self.accepted {
            Some(_) => !bytes.is_empty(),
            None => bytes.len() > LONGEST_CERTIFICATE_LINE - self.line.len(),
        }
    }

    // Takes bytes of a line. The answer is the line's number, where it is refused.
    fn take_bytes(&mut self, bytes: &[u8]) -> Result<Option<u64>, NoMemory>
        requires plain { HasNoFeed bytes.now }
        requires ready { IsReady self.old }
        ensures { IfOk result (λ refused. IsTaken N.follows self.old bytes.now refused self.new) }
    {
        let number = self.number()?;
        if self.is_over(bytes) {
            return Ok(Some(number));
        }
        self.line.extend_from_slice(bytes)?;
        Ok(None)
    }

    // What the verifier tells of the line, of which these are the last bytes.
    fn check_line<L: Ledger>(
        &mut self,
        end: &[u8],
        steps: &mut Steps<L>,
    ) -> Result<Checked, NoMemory>
        ensures checked { IfOk result (λ told. IsChecked N.follows self.old.text
            (self.old.line ++ end.now) told self.new.text) }
        ensures lines { self.new.lines ≡ self.old.lines }
    {
        if self.line.is_empty() {
            return self.verifier.line(end, steps);
        }
        self.line.extend_from_slice(end)?;
        self.verifier.line(self.line.as_slice(), steps)
    }

    // One line more was taken.
    fn pass(&mut self, number: u64, accepted: Option<bool>)
        ensures { self.new ≡ record {
          text = self.old.text;
          line = [];
          lines = number;
          accepted = accepted;
        } }
    {
        self.line.clear();
        self.lines = number;
        self.accepted = accepted;
    }

    // Takes the last bytes of a line, and its line feed. The answer is the line's number, where it
    // is refused.
    fn take_line<L: Ledger>(
        &mut self,
        end: &[u8],
        steps: &mut Steps<L>,
    ) -> Result<Option<u64>, NoMemory>
        requires plain { HasNoFeed end.now }
        requires ready { IsReady self.old }
        ensures { IfOk result (λ refused. IsTaken N.follows self.old (end.now ++ 10 ∷ []) refused
            self.new) }
    {
        let number = self.number()?;
        if self.is_over(end) {
            return Ok(Some(number));
        }
        match self.check_line(end, steps)? {
            Checked::Refused(_) => return Ok(Some(number)),
            Checked::Accepted(told) => self.pass(number, Some(told)),
            Checked::More => self.pass(number, None),
        }
        Ok(None)
    }

    /// Takes the next bytes. The answer is the number of the line that is refused within them, if
    /// one is.
    ///
    /// # Errors
    ///
    /// `NoMemory`, for the bytes of a line or for what it says.
    pub fn take<L: Ledger>(
        &mut self,
        piece: &[u8],
        steps: &mut Steps<L>,
    ) -> Result<Option<u64>, NoMemory>
        requires { IsReady self.old }
        ensures { IfOk result (λ refused. IsTaken N.follows self.old piece.now refused self.new) }
    {
        let mut rest = piece;
        'lines: while let Some((line, behind)) = split_line(rest) {
            if let Some(refused) = self.take_line(line, steps)? {
                return Ok(Some(refused));
            }
            rest = behind;
        }
        self.take_bytes(rest)
    }

    /// What is told where no byte comes behind those that came.
    pub fn finish(&self) -> Result<Told, NoMemory>
        requires { IsReady self.now }
        ensures { IfOk result (IsEnd N.follows self.now) }
    {
        match self.accepted {
            Some(truth) if self.line.is_empty() => Ok(Told::Accepted(truth)),
            _ => Ok(Told::Refused(self.number()?)),
        }
    }
}
