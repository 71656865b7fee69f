//! What questions come to on a log that was observed for them.
ghost use Rattle.pota_base.specs.Blanks.{IsBlankOf};
ghost use Rattle.ask_top.specs.Asking.{among, number_among};
ghost use Rattle.ask_top.specs.Documents.{IsDocument, bare_on};
ghost use Rattle.ask_top.specs.inside.Observing.{IsObservedFor, StopsAs, fault_of};
ghost use Rattle.ask_questions.specs.Entries.{CanBeObserved};
ghost use Rattle.asked_log.specs.Logs.{CanObserve};
ghost use Rattle.asked_log.specs.Watches.{AreWatches, handed_watches, names_of, said_by};
ghost use Rattle.event_log.specs.declared.log.Log.{Log as LogIs};
ghost use Rattle.log_rules.specs.WholeLogs.{all_of};
ghost use Rattle.over_answers.specs.Tallies.{AreNamedBy, IsFirstStop, Refuses};
ghost use Rattle.std.specs.Prelude.{◌≡◌, ◌<◌, ◌≤◌, length, map, string_bytes, IfErr, IfOk};
ghost use Rattle.pota_base.specs.Limits.{most_questions};

use ask_faults::Fault;
use ask_questions::AskedQuestions;
use ask_text::AskedRun;
use asked_log::{ObservedList, Stop, UnknownName, observe_log};
use event_log::Log;
use log_input::Places;
use over_answers::{NumberedStop, answer_overs, without_watches};
use pota_base::{Bytes, FreeGate, Refused, Steps};
use question_document::{Came, Document, document_of};
use question_instances::Over;
use question_outcomes::outcomes;
use std::alloc::Global;
use std::marker::Brand;
use std::sync::ledger::{Blank, Ledger};
use std::thread::Threads;
use watch::{Handed, Watch};

// The number of a question among all, by its number among those that are asked of the log.
fn number_among(overs: &[Option<Over>], number: usize) -> usize
    ensures { result ≡ number_among overs.now number }
{
    let mut before = 0;
    let mut rest = number;
    for over in overs {
        if over.is_none() {
            if rest <= 1 {
                return before + 1;
            }
            rest -= 1;
        }
        before += 1;
    }
    before + 1
}

// The unknown name, as one of the question of that number among all.
fn among(overs: &[Option<Over>], unknown: UnknownName) -> UnknownName
    ensures { result ≡ among overs.now unknown }
{
    UnknownName {
        question: number_among(overs, unknown.question),
        formula: unknown.formula,
        fault: unknown.fault,
    }
}

// Why there is no answer where the questions are not observed.
fn fault_of(alloc: Global, overs: &[Option<Over>], stop: Stop) -> Fault
    ensures { result ≡ fault_of overs.now stop }
{
    match stop {
        Stop::Unknown(unknown) => Fault::Unknown(among(overs, unknown)),
        Stop::Fall(refusal) => Fault::Refused(refusal, Bytes::new(alloc)),
        Stop::Memory => Fault::Memory,
    }
}

// What the questions come to on what was observed for them. `Fault` is the first one over processes
// that has no answer.
fn answer_observed<R: Threads + Sync, L: Ledger>(
    blank: Blank,
    rt: &R,
    alloc: Global,
    texts: &[String],
    overs: &[Option<Over>],
    steps: u32,
    observed: ObservedList,
) -> Result<Document, Refused<NumberedStop>>
    requires blank { IsBlankOf L.name L.parts blank }
    requires few { length texts.now ≤ most_questions }
    requires observed { (handed : _) × (log : LogIs) × IsObservedFor (said_by answers) handed
        (map string_bytes texts.now) overs.now log observed }
    ensures told { IfOk result (λ made. (handed : _) (log : LogIs)
        → IsObservedFor (said_by answers) handed (map string_bytes texts.now) overs.now log observed
        → IsDocument (handed_watches (said_by answers) handed) steps (map string_bytes texts.now)
        (all_of log) made.holds made.text) }
    ensures stopped { IfErr result (λ stop. Refuses stop (λ f. (handed : _) (log : LogIs)
        → IsObservedFor (said_by answers) handed (map string_bytes texts.now) overs.now log observed
        → IsFirstStop (bare_on (all_of log)) (map string_bytes texts.now) f)) }
{
    let mut taken = Steps::<L>::new(blank);
    let ObservedList { list, observation } = observed;
    // By its contract what the watches answered is what they say of the states.
    let _ = observation.seen();
    let listed = list.listed.as_slice();
    let came = outcomes(rt, alloc, &observation, listed, &FreeGate, &mut taken)?;
    let seen = without_watches(alloc, observation);
    let tallies = answer_overs(rt, alloc, &seen, texts, overs, &FreeGate, &mut taken)?;
    let run = AskedRun {
        alloc,
        states: seen.trace.states(),
        steps,
    };
    let came = Came {
        tallies: &tallies,
        list: &list,
        outcomes: &came,
    };
    let made = document_of(&run, texts, &came)?;
    Ok(made)
}

/// What the questions come to on a whole log, or why that is not told.
pub fn answer_log<R: Threads + Sync>(
    rt: &R,
    alloc: Global,
    texts: &[String],
    steps: u32,
    asked: AskedQuestions,
    watches: Vec<Handed>,
    log: Log,
    places: Places,
) -> Result<Document, Fault>
    requires few { length texts.now ≤ most_questions }
    requires asked { CanBeObserved (map string_bytes texts.now) asked }
    requires watches { AreWatches watches.items }
    requires log { CanObserve log }
    ensures told { IfOk result (λ made. IsDocument (handed_watches (said_by answers) watches.items)
        steps (map string_bytes texts.now) (all_of log) made.holds made.text) }
    ensures stopped { IfErr result (StopsAs (names_of watches.items) (map string_bytes texts.now)
        asked log places) }
{
    let AskedQuestions { list, overs } = asked;
    let observed = match observe_log(alloc, list, watches, log, &places) {
        Ok(observed) => observed,
        Err(stop) => return Err(fault_of(alloc, overs.as_slice(), stop)),
    };
    let overs = overs.as_slice();
    match answer_observed::<R, Brand>(Blank::new(1), rt, alloc, texts, overs, steps, observed) {
        Ok(made) => Ok(made),
        Err(Refused::Fault(stop)) => Err(Fault::Over(stop)),
        Err(Refused::NoMemory) => Err(Fault::Memory),
    }
}
