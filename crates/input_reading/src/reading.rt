//! Reading until no further byte matters.

ghost use Rattle.std.specs.Prelude.{◌≡◌, ◌≢◌, ℕ, ◌<◌, List, length, IfOk, OnErr};
ghost use Rattle.pota_base.specs.Changes.{of_source};
ghost use Rattle.input_reading.specs.Intakes.{Turns, ReadsAll, ReadsShort, rooms_of};

use crate::intake::{Intake, IntakeFor, Turn};
use pota_base::{LONGEST_READ, NoMemory, Source};
use std::alloc::Global;

/// Why no more is read.
#[derive(Clone, Copy, Debug, PartialEq, Eq)]
pub enum End {
    /// The input has ended.
    Ended,
    /// No byte behind those that were read matters.
    Done,
    /// A read failed.
    Failed,
}

// Reads once. The answer is why no more is read, or `None` where there may be more.
fn take_turn<S: Source, I: IntakeFor>(
    source: &mut S,
    intake: &mut I,
    room: &mut [u8],
) -> Result<Option<End>, NoMemory>
    requires room { 0 < length room.old }
    requires at { (aim : I.For) × (bytes : List ℕ) × I.open_for aim intake.old bytes }
    ensures turn { IfOk result (λ end. (aim : I.For) (bytes : List ℕ) → I.open_for aim intake.old
        bytes → Turns (of_source S.Source source.old source.new) (I.open_for aim intake.new)
        (I.done_for aim intake.new) (rooms_of (I.room_for intake.old) (I.room_for intake.new)) bytes
        end) }
    ensures short { OnErr result (ReadsShort (of_source S.Source source.old source.new)) }
    ensures calm { result ≢ Ok (Some End.Failed) → S.faults source.new ≡ S.faults source.old }
{
    match source.read(room) {
        Ok(0) => Ok(Some(End::Ended)),
        Ok(count) => match intake.take_for(&room[..count]) {
            Ok(Turn::More) => Ok(None),
            Ok(Turn::Done) => Ok(Some(End::Done)),
            Err(short) => Err(short),
        },
        Err(_) => Ok(Some(End::Failed)),
    }
}

/// Reads into the intake, for its aim, until it is done, the input has ended, or a read failed.
pub fn read_for<S: Source, I: IntakeFor>(
    alloc: Global,
    source: &mut S,
    intake: &mut I,
) -> Result<End, NoMemory>
    requires { (aim : I.For) × (bytes : List ℕ) × I.open_for aim intake.old bytes }
    ensures reads { IfOk result (λ end. (aim : I.For) (bytes : List ℕ) → I.open_for aim intake.old
        bytes → ReadsAll (of_source S.Source source.old source.new) (I.open_for aim intake.new)
        (I.done_for aim intake.new) bytes end) }
    ensures short { OnErr result (ReadsShort (of_source S.Source source.old source.new)) }
    ensures calm { result ≢ Ok End.Failed → S.faults source.new ≡ S.faults source.old }
{
    let mut buffer = vec![in alloc; 0u8; LONGEST_READ]?;
    let room = buffer.as_mut_slice();
    'turns: loop {
        match take_turn(source, intake, room) {
            Ok(None) => {}
            Ok(Some(end)) => return Ok(end),
            Err(short) => return Err(short),
        }
    }
}

/// Reads into the intake until it is done, the input has ended, or a read failed.
pub fn read_all<S: Source, I: Intake>(
    alloc: Global,
    source: &mut S,
    intake: &mut I,
) -> Result<End, NoMemory>
    requires { (bytes : List ℕ) × I.open_ intake.old bytes }
    ensures reads { IfOk result (λ end. (bytes : List ℕ) → I.open_ intake.old bytes → ReadsAll
        (of_source S.Source source.old source.new) (I.open_ intake.new) (I.done intake.new) bytes
        end) }
    ensures short { OnErr result (ReadsShort (of_source S.Source source.old source.new)) }
    ensures calm { result ≢ Ok End.Failed → S.faults source.new ≡ S.faults source.old }
{
    read_for(alloc, source, intake)
}
