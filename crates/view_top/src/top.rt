//! The one call that the program runs.
ghost use Rattle.std.specs.Prelude.{◌≡◌, ℕ, List as ListOf, map, string_bytes};
ghost use Rattle.pota_base.specs.Changes.{of_sink, of_source};
ghost use Rattle.fault_line.specs.Lines.{Told};
ghost use Rattle.view_top.specs.Calm.{IsCalm};
ghost use Rattle.view_top.specs.Faults.{line_of, exit_status};
ghost use Rattle.view_top.specs.inside.Inputs.{HasCome, PutsView};
ghost use Rattle.view_top.specs.Viewing.{HasViewed};

use crate::asking::{View, view_asked};
use crate::fault::Fault;
use crate::input::Input;
use crate::telling::tell;
use crate::viewing::view_in;
use input_reading::{End, read_all};
use pota_base::{NoMemory, Sink, Source, write_all};
use std::alloc::Global;

/// What a run tells its caller.
#[derive(Clone, Copy, Debug, PartialEq, Eq)]
pub struct Viewed {
    /// None exactly where the view was written.
    pub fault: Option<Fault>,
}

impl Viewed {
    /// The exit status: 0 where the view was written, and else that of the fault.
    pub fn status(&self) -> u8
        ensures { result ≡ exit_status self.now.fault }
    {
        match &self.fault {
            None => 0,
            Some(fault) => fault.status(),
        }
    }
}

// Writes the view of an input that is read no further for this reason.
fn put_view<O: Sink>(
    alloc: Global,
    asked: View,
    input: &mut Input,
    end: End,
    out: &mut O,
) -> Option<Fault>
    requires { (bytes : ListOf ℕ) × HasCome end input.old bytes }
    ensures { (bytes : ListOf ℕ) → HasCome end input.old bytes → PutsView asked end bytes
        (of_sink O.Sink out.old out.new) result }
{
    let shown = match view_in(alloc, asked, input, end) {
        Ok(shown) => shown,
        Err(fault) => return Some(fault),
    };
    match write_all(out, shown.as_slice()) {
        Ok(()) => None,
        Err(_) => Some(Fault::Write),
    }
}

// Reads the input and writes the view that the words ask for.
fn answer<S: Source, O: Sink>(
    alloc: Global,
    words: &[String],
    input: &mut S,
    out: &mut O,
) -> Option<Fault>
    ensures viewed { HasViewed (of_source S.Source input.old input.new)
        (of_sink O.Sink out.old out.new) (map string_bytes words.now) result }
    ensures calm { IsCalm (S.faults input.old) (S.faults input.new) result }
{
    let Some(asked) = view_asked(words) else {
        return Some(Fault::Usage);
    };
    let mut taken = Input::new(alloc);
    match read_all(alloc, input, &mut taken) {
        Ok(end) => put_view(alloc, asked, &mut taken, end, out),
        Err(NoMemory) => Some(Fault::Memory),
    }
}

/// Writes the view that the words ask for: of the log that the source has, and of the last report
/// of those that stand at once behind the log's `end` line, one behind the other.
///
/// The words are the command line without the program's name. The view goes to `out`, and one line
/// that tells why there is none to `diag`.
pub fn view<S: Source, O: Sink, D: Sink>(
    alloc: Global,
    words: &[String],
    input: &mut S,
    out: &mut O,
    diag: &mut D,
) -> Viewed
    ensures viewed { HasViewed (of_source S.Source input.old input.new)
        (of_sink O.Sink out.old out.new) (map string_bytes words.now) result.fault }
    ensures calm { IsCalm (S.faults input.old) (S.faults input.new) result.fault }
    ensures told { Told (of_sink D.Sink diag.old diag.new) (line_of result.fault) }
{
    let fault = answer(alloc, words, input, out);
    if let Some(fault) = &fault {
        tell(diag, fault);
    }
    Viewed { fault }
}
