//! A source and a sink in memory, whose failures are set beforehand.
//!
//! Each call moves as much as it may: the least of what there is, what there is room for, and the
//! most that a call moves. Calls are numbered from 1.
ghost use Rattle.std.specs.Prelude.{◌≡◌, ◌⊎◌, ◌-◌, ℕ, ◌+◌, ◌<◌, ◌≤◌, ◌++◌, ◌==◌, ◌↔◌, min};
ghost use Rattle.std.specs.Prelude.{length, take, drop, IfOk, IsErr, OnOk, OnErr, Option, Some};
ghost use Rattle.std.specs.Prelude.{true};
ghost use Rattle.std.specs.Io.{ReadsAtMost};
ghost use Rattle.std.specs.Io.KnownBytes.{Appends, ReadConsumes};
ghost use Rattle.pota_base.specs.Memory.{SourceState, SinkState, is_named, given, given_up, taken};
ghost use Rattle.pota_base.specs.Memory.{refused, fresh_source, fresh_sink};
ghost use Rattle.pota_base.specs.Outside.{HasCause, Rose, WriteHolds};

use crate::{Failed, NoMemory, Sink, Source};
use std::alloc::Global;
use std::marker::Model;

/// Copies as much of the front of `from` as `into` has room for, `most` bytes at the most.
fn copy_front(from: &[u8], into: &mut [u8], most: usize) -> usize
    ensures count { result ≡ min most (min (length from.now) (length into.old)) }
    ensures copied { into.new ≡ take result from.now ++ drop result into.old }
{
    let count = most.min(from.len().min(into.len()));
    into[..count].copy_from_slice(&from[..count]);
    count
}

/// A source that gives the bytes it was made with.
#[derive(Drop)]
pub struct MemSource {
    bytes: Vec<u8>,
    at: usize,
    most: usize,
    failing: Vec<u64>,
    calls: u64,
    faults: u64,
}

impl Model for MemSource {
    ghost Value = { SourceState };

    ghost view = { λ s. record {
      bytes = drop s.at s.bytes.items;
      faults = s.faults;
      calls = s.calls;
      most = s.most;
      failing = s.failing.items;
    } };

    ghost invariant = { λ s. (s.at ≤ length s.bytes.items) × (1 ≤ s.most) };
}

impl MemSource {
    /// A source of these bytes, at most `most` a call, that fails at the calls that `failing`
    /// numbers.
    pub fn new(
        alloc: Global,
        bytes: &[u8],
        most: usize,
        failing: &[u64],
    ) -> Result<MemSource, NoMemory>
        requires { 1 ≤ most }
        ensures { IfOk result (λ s. s ≡ fresh_source bytes.now most failing.now) }
    {
        Ok(MemSource {
            bytes: bytes.to_vec(alloc)?,
            at: 0,
            most,
            failing: failing.to_vec(alloc)?,
            calls: 0,
            faults: 0,
        })
    }
}

impl Source for MemSource {
    ghost left = { λ s. Some s.bytes };

    ghost faults = { λ s. s.faults };

    fn read(&mut self, into: &mut [u8]) -> Result<usize, Failed>
        ensures bound { ReadsAtMost result into.new }
        ensures bytes { ReadConsumes (Some self.old.bytes) (Some self.new.bytes) result into.new }
        ensures calm { OnOk result (self.new.faults ≡ self.old.faults) }
        ensures cause { HasCause self.old.faults self.new.faults result }

        ensures fails { IsErr result ↔ (is_named self.old.failing self.old.calls ≡ true) }
        ensures gives { IfOk result (λ n.
            (n ≡ min self.old.most (min (length self.old.bytes) (length into.old)))
            × (self.new ≡ given self.old n)) }
        ensures err { OnErr result (self.new ≡ given_up self.old) }
    {
        self.calls = self.calls.saturating_add(1);
        if self.failing.contains(&self.calls) {
            self.faults = self.faults.saturating_add(1);
            return Err(Failed);
        }
        let count = copy_front(&self.bytes[self.at..], into, self.most);
        self.at += count;
        Ok(count)
    }
}

/// A sink that keeps what it is given, up to its room.
#[derive(Drop)]
pub struct MemSink {
    bytes: Vec<u8>,
    len: usize,
    most: usize,
    failing: Vec<u64>,
    calls: u64,
    faults: u64,
}

impl Model for MemSink {
    ghost Value = { SinkState };

    ghost view = { λ s. record {
      bytes = take s.len s.bytes.items;
      faults = s.faults;
      calls = s.calls;
      most = s.most;
      room = length s.bytes.items;
      failing = s.failing.items;
    } };

    ghost invariant = { λ s. (s.len ≤ length s.bytes.items) × (1 ≤ s.most) };
}

impl MemSink {
    /// An empty sink with room for `room` bytes, that takes at most `most` a call and fails at the
    /// calls that `failing` numbers. Where it is full it takes nothing, which counts as a fault.
    pub fn new(
        alloc: Global,
        room: usize,
        most: usize,
        failing: &[u64],
    ) -> Result<MemSink, NoMemory>
        requires { 1 ≤ most }
        ensures { IfOk result (λ s. s ≡ fresh_sink room most failing.now) }
    {
        Ok(MemSink {
            bytes: vec![in alloc; 0u8; room]?,
            len: 0,
            most,
            failing: failing.to_vec(alloc)?,
            calls: 0,
            faults: 0,
        })
    }

    /// The bytes that it has taken.
    pub fn held(&self) -> &[u8]
        ensures { result.now ≡ self.now.bytes }
    {
        &self.bytes[..self.len]
    }
}

impl Sink for MemSink {
    ghost held = { λ s. Some s.bytes };

    ghost faults = { λ s. s.faults };

    fn write(&mut self, piece: &[u8]) -> Result<usize, Failed>
        ensures bytes { WriteHolds (Some self.old.bytes) (Some self.new.bytes) self.old.faults
            self.new.faults result piece.now }
        ensures calm { IfOk result (λ n. 0 < n → self.new.faults ≡ self.old.faults) }
        ensures cause { HasCause self.old.faults self.new.faults result }

        ensures fails { IsErr result ↔ (is_named self.old.failing self.old.calls ≡ true) }
        ensures count { IfOk result (λ n. n
            ≡ min self.old.most (min (length piece.now) (self.old.room - length self.old.bytes))) }
        ensures takes { OnOk result (length self.old.bytes < self.old.room
            → IfOk result (λ n. self.new ≡ taken self.old (take n piece.now))) }
        ensures full { OnOk result (length self.old.bytes ≡ self.old.room → 0 < length piece.now
            → self.new ≡ refused self.old) }
        ensures err { OnErr result (self.new ≡ refused self.old) }
    {
        self.calls = self.calls.saturating_add(1);
        if self.failing.contains(&self.calls) {
            self.faults = self.faults.saturating_add(1);
            return Err(Failed);
        }
        if self.len == self.bytes.len() {
            if !piece.is_empty() {
                self.faults = self.faults.saturating_add(1);
            }
            return Ok(0);
        }
        let count = copy_front(piece, &mut self.bytes[self.len..], self.most);
        self.len += count;
        Ok(count)
    }
}
