//! A certificate behind a log.
ghost use Rattle.pota_base.specs.Changes.{of_source};
ghost use Rattle.pota_base.specs.Blanks.{IsBlankOf};
ghost use Rattle.std.specs.Prelude.{◌≡◌, ◌≢◌, ◌≤◌, ◌<◌, IfOk};
ghost use Rattle.rctl_parts.specs.Pieces.{disjuncts_of};
ghost use Rattle.rctl_parts.specs.MadeFor.{AreMadeFor};
ghost use Rattle.part_pulls.specs.Counters.{CountersRise};
ghost use Rattle.part_pulls.specs.Observing.{IsReady, clocks_seen, scope_seen};
ghost use Rattle.certificate_nodes.specs.Nodes.{AreNodes, fresh_nodes};
ghost use Rattle.certificate.specs.Numbering.{plan_of};
ghost use Rattle.certificate_input.specs.Telling.{IsFresh};
ghost use Rattle.certificate_lines.specs.Spelling.{formula_line};
ghost use Rattle.verify_answers.specs.Judging.{HasJudged, IsDecided};
ghost use Rattle.verify_answers.specs.inside.Judging.{answer_of};
ghost use Rattle.verify_answers.specs.Judging.{start_at};

use crate::answer::Answer;
use certificate::{CertificateNodes, nodes_for};
use certificate_input::{Told, read_certificate};
use fault_line::Fault;
use log_check::CheckedLog;
use part_pulls::Observed;
use pota_base::{Bytes, List, NoMemory, Source, Steps};
use rctl_parts::Part;
use stated_formula::Stated;
use std::alloc::Global;
use std::sync::ledger::{Blank, Ledger};
use verifier::Verifier;

// The line of a formula with this text.
fn formula_line(alloc: Global, text: &[u8]) -> Result<Bytes, NoMemory>
    ensures { IfOk result (λ line. line ≡ formula_line text.now) }
{
    let mut line = List::new(alloc);
    line.extend_from_slice(b"formula ")?;
    line.extend_from_slice(text)?;
    Ok(line)
}

// The line of a stated formula, which is given up.
fn line_of(alloc: Global, stated: Stated) -> Result<Bytes, NoMemory>
    ensures { IfOk result (λ line. line ≡ formula_line stated.text) }
{
    let line = formula_line(alloc, stated.text.as_slice());
    drop(stated);
    line
}

// The nodes of the formula with these disjuncts on what was observed, of which none was begun.
fn nodes_of(
    alloc: Global,
    seen: Observed,
    disjuncts: List<List<Part>>,
) -> Result<CertificateNodes, NoMemory>
    requires ready { IsReady seen }
    requires made { AreMadeFor (scope_seen seen) (disjuncts_of disjuncts) }
    requires rise { CountersRise seen (disjuncts_of disjuncts) }
    ensures nodes { IfOk result AreNodes }
    ensures fresh { IfOk result (λ nodes. nodes
        ≡ fresh_nodes (clocks_seen seen) (plan_of seen (disjuncts_of disjuncts))) }
{
    let nodes = nodes_for(alloc, seen, disjuncts.as_slice())?;
    Ok(CertificateNodes::new(nodes))
}

// The verifier of a formula's certificate on a log, before its first line.
fn begin(alloc: Global, checked: CheckedLog) -> Result<Verifier<CertificateNodes>, NoMemory>
    requires ready { IsReady checked.seen }
    requires made { AreMadeFor (scope_seen checked.seen) (disjuncts_of checked.disjuncts) }
    requires rise { CountersRise checked.seen (disjuncts_of checked.disjuncts) }
    ensures start { IfOk result (λ verifier. verifier ≡ start_at checked) }
    ensures nodes { IfOk result (λ _. AreNodes (start_at checked).nodes) }
{
    // Each call takes its part of the log whole, so that a failure leaves little to give back.
    let formula = line_of(alloc, checked.stated);
    let nodes = nodes_of(alloc, checked.seen, checked.disjuncts)?;
    Ok(Verifier::new(alloc, formula?, nodes))
}

// What is answered where this is told of the bytes.
fn answer_of(told: Told) -> Answer
    ensures { result ≡ answer_of told }
{
    match told {
        Told::Accepted(truth) => Answer::Accepted(truth),
        Told::Refused(line) => Answer::Refused(line),
        Told::Failed => Answer::Faulty(Fault::Read),
    }
}

// Judges a certificate whose first bytes are these.
fn judge_all<L: Ledger, S: Source>(
    alloc: Global,
    verifier: Verifier<CertificateNodes>,
    front: &[u8],
    source: &mut S,
    steps: &mut Steps<L>,
) -> Answer
    requires { IsFresh verifier }
    ensures judged { HasJudged (of_source S.Source source.old source.new) verifier front.now
        result }
    ensures calm { result ≢ Answer.Faulty Fault.Read → S.faults source.new ≡ S.faults source.old }
{
    match read_certificate(alloc, verifier, front, source, steps) {
        Ok(told) => answer_of(told),
        Err(_) => Answer::Faulty(Fault::Memory),
    }
}

/// Judges the certificate behind a log. Its first bytes are these, and the source has the others.
pub fn judge_certificate<L: Ledger, S: Source>(
    blank: Blank,
    alloc: Global,
    checked: CheckedLog,
    front: &[u8],
    source: &mut S,
) -> Answer
    requires blank { IsBlankOf L.name L.parts blank }
    requires ready { IsReady checked.seen }
    requires made { AreMadeFor (scope_seen checked.seen) (disjuncts_of checked.disjuncts) }
    requires rise { CountersRise checked.seen (disjuncts_of checked.disjuncts) }
    ensures judged { HasJudged (of_source S.Source source.old source.new) (start_at checked)
        front.now result }
    ensures nodes { IsDecided result → AreNodes (start_at checked).nodes }
    ensures calm { result ≢ Answer.Faulty Fault.Read → S.faults source.new ≡ S.faults source.old }
{
    let Ok(verifier) = begin(alloc, checked) else {
        return Answer::Faulty(Fault::Memory);
    };
    judge_all(alloc, verifier, front, source, &mut Steps::<L>::new(blank))
}
