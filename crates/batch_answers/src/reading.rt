//! Reading a log to its end, and checking it as it comes.
ghost use Rattle.std.specs.Prelude.{◌≡◌, ◌<◌, ◌++◌, [], ℕ, List, length};
ghost use Rattle.pota_base.specs.Changes.{of_sink, of_source};
ghost use Rattle.log_rules.specs.Passage.{passage_of};
ghost use Rattle.log_rules.specs.Judgement.{waiting};
ghost use Rattle.log_answers.specs.Asking.{asking_of};
ghost use Rattle.log_answers.specs.PassedOn.{Aim, said_by};
ghost use Rattle.log_answers.specs.PassedOn.{IsCheckOf};
ghost use Rattle.log_answers.specs.Calm.{IsCalmUnlessRead};
ghost use Rattle.batch_answers.specs.Reading.{HasReadLog};
ghost use Rattle.batch_answers.specs.inside.Reading.{Finishes, HasJudged, TakesPiece, Turns};
ghost use Rattle.batch_answers.specs.inside.Reading.{judging_of};

use event_log::{Fed, Reader};
use fault_kinds::Refusal;
use log_answers::{Checking, Means, Stop, StopCause};
use pota_base::{Gate, LONGEST_READ, Sink, Source};
use std::sync::ledger::Ledger;
use std::thread::Threads;
use watch::{Handed, Watch};

/// What one read led to.
#[derive(Clone, Copy, Debug)]
pub enum Turn {
    More,
    End,
}

// These bytes more were read.
fn take_piece<R: Threads + Sync, G: Gate, L: Ledger, O: Sink>(
    means: &Means<'_, R, G>,
    reader: &mut Reader,
    checking: &mut Checking<L>,
    piece: &[u8],
    out: &mut O,
) -> Result<Turn, Stop>
    requires { (aim : Aim) × (bytes : List ℕ) × (text : List ℕ)
        × HasJudged (judging_of (said_by answers) reader.old checking.old.check)
        (asking_of aim checking.old.each_batch) (passage_of bytes text) }
    ensures piece { (aim : Aim) (bytes text : List ℕ) → HasJudged (judging_of (said_by answers)
        reader.old checking.old.check) (asking_of aim checking.old.each_batch)
        (passage_of bytes text) → TakesPiece (of_sink O.Sink out.old out.new) (judging_of
        (said_by answers) reader.new checking.new.check) (asking_of aim checking.old.each_batch)
        (passage_of (bytes ++ piece.now) text) result }
    ensures each { checking.new.each_batch ≡ checking.old.each_batch }
{
    let Ok(fed) = reader.feed(piece) else {
        return Err(Stop::without_memory());
    };
    let Fed { items, fault } = fed;
    if let Err(stop) = checking.take_all(means, items, out) {
        return Err(stop);
    }
    match fault {
        Some(fault) => Err(checking.stop(StopCause::Refused(Refusal::Log(fault)))),
        None => Ok(Turn::More),
    }
}

// The input has ended.
fn finish<L: Ledger>(reader: &mut Reader, checking: &Checking<L>) -> Result<Turn, Stop>
    requires { (aim : Aim) × (bytes : List ℕ) × (text : List ℕ)
        × HasJudged (judging_of (said_by answers) reader.old checking.now.check)
        (asking_of aim checking.now.each_batch) (passage_of bytes text) }
    ensures { (aim : Aim) (bytes text : List ℕ) → HasJudged
        (judging_of (said_by answers) reader.old checking.now.check)
        (asking_of aim checking.now.each_batch) (passage_of bytes text) → (of : ℕ) → Finishes of
        (said_by answers) (asking_of aim checking.now.each_batch) checking.now.check
        (passage_of bytes text) result }
{
    match reader.finish() {
        Some(fault) => Err(checking.stop(StopCause::Refused(Refusal::Log(fault)))),
        None => Ok(Turn::End),
    }
}

// Reads once, and checks what was read.
fn take_turn<R: Threads + Sync, G: Gate, L: Ledger, S: Source, O: Sink>(
    means: &Means<'_, R, G>,
    reader: &mut Reader,
    checking: &mut Checking<L>,
    room: &mut [u8],
    log: &mut S,
    out: &mut O,
) -> Result<Turn, Stop>
    requires room { 0 < length room.old }
    requires judged { (aim : Aim) × (bytes : List ℕ) × (text : List ℕ)
        × HasJudged (judging_of (said_by answers) reader.old checking.old.check)
        (asking_of aim checking.old.each_batch) (passage_of bytes text) }
    ensures turn { (aim : Aim) (bytes text : List ℕ) → HasJudged (judging_of (said_by answers)
        reader.old checking.old.check) (asking_of aim checking.old.each_batch)
        (passage_of bytes text) → Turns (of_source S.Source log.old log.new)
        (of_sink O.Sink out.old out.new) (judging_of (said_by answers) reader.new
        checking.new.check) (asking_of aim checking.old.each_batch) (passage_of bytes text) result }
    ensures each { checking.new.each_batch ≡ checking.old.each_batch }
    ensures calm { IsCalmUnlessRead (S.faults log.old) (S.faults log.new) result }
{
    match log.read(room) {
        Ok(0) => finish(reader, checking),
        Ok(count) => take_piece(means, reader, checking, &room[..count], out),
        Err(_) => Err(checking.stop(StopCause::Read)),
    }
}

/// Reads the log to its end, and writes all reports but that on the whole of it.
pub fn read_log<R: Threads + Sync, G: Gate, L: Ledger, S: Source, O: Sink>(
    means: &Means<'_, R, G>,
    checking: &mut Checking<L>,
    log: &mut S,
    out: &mut O,
) -> Result<(), Stop>
    requires { (aim : Aim) × IsCheckOf (said_by answers) aim checking.old.check waiting }
    ensures log { (aim : Aim) → IsCheckOf (said_by answers) aim checking.old.check waiting
        → HasReadLog (of_source S.Source log.old log.new) (of_sink O.Sink out.old out.new)
        (said_by answers) (asking_of aim checking.old.each_batch) checking.new.check result }
    ensures each { checking.new.each_batch ≡ checking.old.each_batch }
    ensures calm { IsCalmUnlessRead (S.faults log.old) (S.faults log.new) result }
{
    let Ok(mut buffer) = vec![in means.alloc; 0u8; LONGEST_READ] else {
        return Err(Stop::without_memory());
    };
    let room = buffer.as_mut_slice();
    let mut reader = Reader::new(means.alloc);
    'turns: loop {
        match take_turn(means, &mut reader, checking, room, log, out) {
            Ok(Turn::More) => {}
            Ok(Turn::End) => return Ok(()),
            Err(stop) => return Err(stop),
        }
    }
}
