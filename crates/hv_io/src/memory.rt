//! Sources and sinks in memory, which tell their bytes and fail where they are made to.

ghost use Rattle.std.specs.Prelude.{◌≡◌, ℕ, ◌+◌, ◌^◌, ◌<◌, ◌≤◌, min, List, [], ◌++◌, length, take, drop, None, Some, IfOk, OnErr, MatchBool, IsErr};
ghost use Rattle.std.specs.Io.{ReadsAtMost, WritesAtMost};
ghost use Rattle.std.specs.Io.KnownBytes.{ReadConsumes, WriteAppends};
ghost use Rattle.hv_io.specs.Faults.{HasCause, IsFull};
ghost use Rattle.hv_io.specs.Memory.{SourceState, SinkState, is_listed, count_given, after_take, fails_now, count_taken, after_give};

use super::{Failed, Sink, Source};
use std::alloc::{AllocError, Global};
use std::marker::Model;

/// A source in memory that never fails. It is seen as the bytes left.
#[derive(Drop)]
pub struct HonestSource {
    bytes: Vec<u8>,
    at: usize,
}

impl Model for HonestSource {
    ghost Value = { List ℕ };

    ghost view = { λ source. drop source.at source.bytes.items };

    ghost invariant = { λ source. source.at ≤ length source.bytes.items };
}

impl HonestSource {
    /// The source of these bytes.
    pub fn new(bytes: Vec<u8>) -> HonestSource
        ensures { result ≡ bytes.items }
    {
        HonestSource { bytes, at: 0 }
    }
}

impl Source for HonestSource {
    ghost left = { λ source. Some source };

    ghost faults = { λ _. 0 };

    ghost made = { λ _. None };

    fn take(&mut self, buf: &mut [u8]) -> Result<usize, Failed>
        ensures bound { ReadsAtMost result buf.new }
        ensures bytes { ReadConsumes (Some self.old) (Some self.new) result buf.new }
        ensures all { result ≡ Ok (min (length buf.new) (length self.old)) }
    {
        let count = buf.len().min(self.bytes.len() - self.at);
        fill(self.bytes.as_slice(), self.at, count, buf);
        self.at += count;
        Ok(count)
    }
}

/// A source in memory that gives its bytes in chunks and fails at the calls that it was made to
/// fail at.
#[derive(Drop)]
pub struct MemSource {
    source: HonestSource,
    chunk: usize,
    fails: Vec<u32>,
    calls: u64,
    faults: u64,
}

impl Model for MemSource {
    ghost Value = { SourceState };

    ghost view = { λ s. record {
      left = s.source;
      chunk = s.chunk;
      fails = s.fails.items;
      calls = s.calls;
      faults = s.faults;
    } };

    ghost invariant = { λ s. (0 < s.chunk) × (s.faults < 2 ^ 64) };
}

impl MemSource {
    /// The source of these bytes, which gives at most `chunk` in a call. Exactly the calls with a
    /// number in `fails`, counted from 0, fail.
    pub fn new(bytes: Vec<u8>, chunk: usize, fails: Vec<u32>) -> MemSource
        requires { 0 < chunk }
        ensures { result ≡ record {
          left = bytes.items;
          chunk = chunk;
          fails = fails.items;
          calls = 0;
          faults = 0;
        } }
    {
        MemSource {
            source: HonestSource::new(bytes),
            chunk,
            fails,
            calls: 0,
            faults: 0,
        }
    }
}

impl Source for MemSource {
    ghost left = { λ source. Some source.left };

    ghost faults = { λ source. source.faults };

    ghost made = { λ _. None };

    fn take(&mut self, buf: &mut [u8]) -> Result<usize, Failed>
        ensures bound { ReadsAtMost result buf.new }
        ensures bytes { ReadConsumes (Some self.old.left) (Some self.new.left) result buf.new }
        ensures cause { HasCause self.old.faults self.new.faults result }
        ensures counted { self.new.faults < 2 ^ 64 }

        // Exactly the listed calls fail, and the others give as much as they may.
        ensures answer { MatchBool (is_listed self.old.fails self.old.calls)
            (IsErr result) (result ≡ Ok (count_given self.old (length buf.new))) }
        ensures after { self.new ≡ after_take self.old (length buf.new) }
    {
        let call = self.calls;
        self.calls = call.saturating_add(1);
        if is_listed(self.fails.as_slice(), call) {
            self.faults = self.faults.saturating_add(1);
            return Err(Failed);
        }
        let want = buf.len().min(self.chunk);
        self.source.take(&mut buf[..want])
    }
}

/// A sink in memory, which takes its room at once, takes bytes in chunks and fails at the calls
/// that it was made to fail at, and where no room is left.
#[derive(Drop)]
pub struct MemSink {
    bytes: Vec<u8>,
    room: usize,
    chunk: usize,
    fails: Vec<u32>,
    calls: u64,
    faults: u64,
}

impl Model for MemSink {
    ghost use Rattle.hv_io.specs.Memory.{SinkState};

    ghost Value = { SinkState };

    ghost view = { λ s. record {
      held = s.bytes.items;
      room = s.room;
      chunk = s.chunk;
      fails = s.fails.items;
      calls = s.calls;
      faults = s.faults;
    } };

    ghost use Rattle.hv_io.specs.Sink.{IsSound};

    ghost invariant = { IsSound };
}

impl MemSink {
    /// An empty sink with room for so many bytes, which takes at most `chunk` in a call. The calls
    /// with a number in `fails`, counted from 0, fail, and so does a call with a piece that isn't
    /// empty when no room is left.
    pub fn new(
        alloc: Global,
        room: usize,
        chunk: usize,
        fails: Vec<u32>,
    ) -> Result<MemSink, AllocError>
        requires { 0 < chunk }
        ensures { IfOk result (λ sink. sink ≡ record {
          held = [];
          room = room;
          chunk = chunk;
          fails = fails.items;
          calls = 0;
          faults = 0;
        }) }
    {
        let bytes = Vec::with_capacity(alloc, room)?;
        Ok(MemSink {
            bytes,
            room,
            chunk,
            fails,
            calls: 0,
            faults: 0,
        })
    }

    /// The bytes held.
    pub fn held(&self) -> &[u8]
        ensures held { result.now ≡ self.now.held }
        ensures inside { length self.now.held ≤ self.now.room }

        // With an empty list of failing calls the count is 0 while room is left.
        ensures clean { self.now.fails ≡ [] → length self.now.held < self.now.room → self.now.faults ≡ 0 }
    {
        self.bytes.as_slice()
    }
}

impl Sink for MemSink {
    ghost held = { λ sink. Some sink.held };

    ghost faults = { λ sink. sink.faults };

    ghost made = { λ sink. Some (record { room = sink.room; fails = sink.fails }) };

    fn give(&mut self, piece: &[u8]) -> Result<usize, Failed>
        ensures bound { WritesAtMost result piece.now }
        ensures some { IfOk result (λ count. 0 < length piece.now → 0 < count) }
        ensures bytes { WriteAppends (Some self.old.held) (Some self.new.held) result piece.now }
        ensures cause { HasCause self.old.faults self.new.faults result }
        ensures full { OnErr result (IsFull (Some (record { room = self.old.room; fails = self.old.fails })) (Some self.old.held)) }
        ensures counted { self.new.faults < 2 ^ 64 }

        // A call fails exactly where it is listed or no room is left, and else takes what it may.
        ensures answer { MatchBool (fails_now self.old (length piece.now))
            (IsErr result) (result ≡ Ok (count_taken self.old (length piece.now))) }
        ensures after { self.new ≡ after_give self.old piece.now }
    {
        let call = self.calls;
        self.calls = call.saturating_add(1);
        let left = self.room - self.bytes.len();
        if is_listed(self.fails.as_slice(), call) || (!piece.is_empty() && left == 0) {
            self.faults = self.faults.saturating_add(1);
            return Err(Failed);
        }
        let count = piece.len().min(left).min(self.chunk);
        self.bytes.extend_from_slice(&piece[..count]).unwrap();
        Ok(count)
    }
}

/// Copies the `count` bytes that stand from `at` on to the front of the buffer.
fn fill(bytes: &[u8], at: usize, count: usize, buf: &mut [u8])
    requires inside { at + count ≤ length bytes.now }
    requires room { count ≤ length buf.old }
    ensures copied { drop at bytes.now ≡ take count buf.new ++ drop (at + count) bytes.now }
{
    let (_, rest) = bytes.split_at(at);
    let (front, _) = rest.split_at(count);
    buf[..count].copy_from_slice(front);
}

/// Whether the call with this number is among those that fail.
fn is_listed(fails: &[u32], call: u64) -> bool
    ensures { result ≡ is_listed fails.now call }
{
    fails.iter().any(|number| u64::from(*number) == call)
}
