//! The writing of a certificate.
ghost use Rattle.pota_base.specs.Blanks.{IsBlankOf};
ghost use Rattle.std.specs.Prelude.{◌≡◌, ◌<◌, ◌++◌, ◌∷◌, [], IfOk, OnErr, OnOk};
ghost use Rattle.std.specs.Io.KnownBytes.{Appends};
ghost use Rattle.pota_base.specs.Outside.{AppendsPrefix, HasCause};
ghost use Rattle.pota_base.specs.Changes.{of_sink};
ghost use Rattle.rctl_parts.specs.Pieces.{disjuncts_of};
ghost use Rattle.certificate_lines.specs.Spelling.{line_text, lines_text};
ghost use Rattle.certificate_text.specs.Running.{IsOfNode};
ghost use Rattle.certificate_next_line.specs.PassedOn.{IsNext};
ghost use Rattle.certificate_next_line.specs.Coming.{lines_left};
ghost use Rattle.certify.specs.Certifying.{CanBeCertified, HasFront, IsCertifying};
ghost use Rattle.certify.specs.inside.Written.{IsWritten, WroteFront};

use certificate_lines::{Line, put_end, put_head, put_line};
use certificate_next_line::{CanonicalNodes, nodes_for};
use part_pulls::Observed;
use pota_base::{Bytes, Failed, LONGEST_READ, List, NoMemory, Sink, Steps, write_all};
use rctl_parts::Part;
use std::alloc::Global;
use std::marker::Brand;
use std::sync::ledger::{Blank, Ledger};

/// Writes the canonical certificate of the formula of these disjuncts on what was observed, and
/// gives the verdict that it tells. `formula` is the formula's line, without its line feed. At
/// `Ok(Err(failed))` a write failed.
///
/// # Errors
///
/// `NoMemory`.
pub fn certify<O: Sink>(
    alloc: Global,
    seen: Observed,
    disjuncts: &[List<Part>],
    formula: &[u8],
    out: &mut O,
) -> Result<Result<bool, Failed>, NoMemory>
    requires can { CanBeCertified seen (disjuncts_of disjuncts.now) }
    ensures certified { IfOk result (λ ended. IsCertifying ended (of_sink O.Sink out.old out.new)
        seen (disjuncts_of disjuncts.now) formula.now) }
    ensures memory { OnErr result (HasFront (O.held out.old) (O.held out.new) seen
        (disjuncts_of disjuncts.now) formula.now) }
    ensures calm { OnErr result (O.faults out.new ≡ O.faults out.old) }
{
    certify_counted::<O, Brand>(Blank::new(1), alloc, seen, disjuncts, formula, out)
}

/// The same, with look-ups counted on a counter that nobody reads.
fn certify_counted<O: Sink, L: Ledger>(
    blank: Blank,
    alloc: Global,
    seen: Observed,
    disjuncts: &[List<Part>],
    formula: &[u8],
    out: &mut O,
) -> Result<Result<bool, Failed>, NoMemory>
    requires blank { IsBlankOf L.name L.parts blank }
    requires can { CanBeCertified seen (disjuncts_of disjuncts.now) }
    ensures certified { IfOk result (λ ended. IsCertifying ended (of_sink O.Sink out.old out.new)
        seen (disjuncts_of disjuncts.now) formula.now) }
    ensures memory { OnErr result (HasFront (O.held out.old) (O.held out.new) seen
        (disjuncts_of disjuncts.now) formula.now) }
    ensures calm { OnErr result (O.faults out.new ≡ O.faults out.old) }
{
    let nodes = nodes_for(alloc, seen, disjuncts)?;
    let mut lines = CanonicalNodes::new(alloc, nodes);
    write_lines(alloc, &mut lines, formula, out, &mut Steps::<L>::new(blank))
}

/// Writes the text of the nodes' canonical lines as they come, and gives the verdict.
fn write_lines<O: Sink, L: Ledger>(
    alloc: Global,
    nodes: &mut CanonicalNodes,
    formula: &[u8],
    out: &mut O,
    steps: &mut Steps<L>,
) -> Result<Result<bool, Failed>, NoMemory>
    ensures written { IfOk result (λ ended. IsWritten ended (of_sink O.Sink out.old out.new)
        formula.now nodes.old) }
    ensures memory { OnErr result
        (WroteFront (O.held out.old) (O.held out.new) formula.now nodes.old) }
    ensures calm { OnErr result (O.faults out.new ≡ O.faults out.old) }
{
    let mut text = Bytes::new(alloc);
    put_head(&mut text, formula)?;
    'lines: loop {
        let line = put_next(nodes, &mut text, steps)?;
        if let Line::Verdict(told) = line {
            put_end(&mut text)?;
            return Ok(finish(out, text.as_slice(), told));
        }
        if text.len() >= LONGEST_READ {
            match flush(alloc, out, &mut text) {
                Ok(()) => {}
                Err(failed) => return Ok(Err(failed)),
            }
        }
    }
}

/// Puts the next line behind the text, and gives it.
fn put_next<L: Ledger>(
    nodes: &mut CanonicalNodes,
    text: &mut Bytes,
    steps: &mut Steps<L>,
) -> Result<Line, NoMemory>
    ensures next { IfOk result (λ line. IsNext nodes.old line nodes.new) }
    ensures less { IfOk result
        (λ line. IsOfNode line → lines_left nodes.new < lines_left nodes.old) }
    ensures text { IfOk result (λ line. text.new ≡ text.old ++ lines_text (line_text line ∷ [])) }
{
    let line = nodes.next_line(steps)?;
    put_line(text, line)?;
    Ok(line)
}

/// Writes all that waits.
fn flush<O: Sink>(alloc: Global, out: &mut O, text: &mut Bytes) -> Result<(), Failed>
    ensures whole { OnOk result (Appends (O.held out.old) (O.held out.new) text.old) }
    ensures none { OnOk result (text.new ≡ []) }
    ensures calm { OnOk result (O.faults out.new ≡ O.faults out.old) }
    ensures part { OnErr result (AppendsPrefix (O.held out.old) (O.held out.new) text.old) }
    ensures cause { HasCause (O.faults out.old) (O.faults out.new) result }
{
    write_all(out, text.as_slice())?;
    *text = Bytes::new(alloc);
    Ok(())
}

/// Writes what is left, and gives the verdict.
fn finish<O: Sink>(out: &mut O, text: &[u8], told: bool) -> Result<bool, Failed>
    ensures same { IfOk result (λ truth. truth ≡ told) }
    ensures whole { OnOk result (Appends (O.held out.old) (O.held out.new) text.now) }
    ensures calm { OnOk result (O.faults out.new ≡ O.faults out.old) }
    ensures part { OnErr result (AppendsPrefix (O.held out.old) (O.held out.new) text.now) }
    ensures cause { HasCause (O.faults out.old) (O.faults out.new) result }
{
    write_all(out, text)?;
    Ok(told)
}
