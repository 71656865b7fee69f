//! The document of what questions come to.
ghost use Rattle.ask_text.specs.Documents.{document};
ghost use Rattle.question_document.specs.Views.{CanTell, all_hold, views_of};
ghost use Rattle.std.specs.Prelude.{◌≡◌, ◌&&◌, map, string_bytes, IfOk};

use crate::entries::put_entry;
use crate::overs::put_tallied;
use ask_text::{AskedRun, put_head};
use asked_list::AskedList;
use over_answers::Tallied;
use pota_base::{Bytes, List, NoMemory};
use question_outcome::Outcome;

/// What questions come to.
#[derive(Clone, Copy)]
pub struct Came<'a> {
    /// For each question, in their order, its tally, if it is one over processes.
    pub tallies: &'a List<Option<Tallied>>,
    /// The others, in one list.
    pub list: &'a AskedList,
    /// What each question of the list comes to.
    pub outcomes: &'a List<Outcome>,
}

/// A document, and whether each of its questions holds.
#[derive(Debug, Drop)]
pub struct Document {
    pub text: Bytes,
    pub holds: bool,
}

// Whether both are so.
fn both(one: bool, other: bool) -> bool
    ensures { result ≡ one && other }
{
    one && other
}

/// The document of these questions, by what each comes to.
pub fn document_of(
    run: &AskedRun<'_>,
    texts: &[String],
    came: &Came<'_>,
) -> Result<Document, NoMemory>
    requires { CanTell run.now.states.now (map string_bytes texts.now) came.now }
    ensures text { IfOk result (λ made. made.text ≡ document run.now.states.now run.now.steps
        (views_of run.now.states.now.header (map string_bytes texts.now) came.now)) }
    ensures holds { IfOk result (λ made. made.holds
        ≡ all_hold (views_of run.now.states.now.header (map string_bytes texts.now) came.now)) }
{
    let mut out = Bytes::new(run.alloc);
    put_head(&mut out, texts.len() as u64)?;
    let disjuncts = came.list.classed.disjuncts.as_slice();
    let mut holds = true;
    let mut one = 0;
    for i in 0..texts.len() {
        let number = i as u64 + 1;
        let text = texts[i].as_bytes();
        let tally = came.tallies.get(i);
        match tally {
            Some(tallied) => {
                put_tallied(&mut out, run, number, text, tallied)?;
                holds = both(holds, tallied.tally.fails == 0);
            }
            None => {
                let entry = *came.list.listed.get(one);
                let outcome = came.outcomes.get(one);
                put_entry(&mut out, run, number, text, entry, disjuncts, outcome)?;
                holds = both(holds, outcome.holds);
                one += 1;
            }
        }
    }
    Ok(Document { text: out, holds })
}
