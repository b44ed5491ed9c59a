//! A source and a sink in memory whose calls fail where a test wants it.
ghost use Rattle.std.specs.Prelude.{◌≡◌, ℕ, ◌+◌, ◌-◌, ◌<◌, ◌≤◌, ◌↔◌, ◌⊎◌, min, [], Some, length, take, drop, vec_len, Contains, IsTrue};
ghost use Rattle.lazy_outside.specs.Bytes.{Gives, Takes};
ghost use Rattle.lazy_outside.specs.Faults.{Rises};
ghost use Rattle.lazy_outside.specs.Memory.{SinkState, SourceState, sink_after, source_after};

use crate::{Given, Sink, Source, Taken};
use std::marker::Model;

/// A source over bytes in memory, of which named calls fail.
#[derive(Drop)]
pub struct MemSource {
    bytes: Vec<u8>,
    at: usize,
    chunk: usize,
    failing: Vec<u32>,
    calls: u64,
    faults: u64,
}

impl Model for MemSource {
    ghost Value = { SourceState };

    ghost view = { λ s. record {
      left = drop s.at s.bytes.items;
      chunk = s.chunk;
      failing = s.failing.items;
      calls = s.calls;
      faults = s.faults;
    } };

    ghost invariant = { λ s. (s.at ≤ vec_len s.bytes) × (1 ≤ s.chunk) };
}

impl MemSource {
    /// A source that gives these bytes, at most `chunk` a call. The calls named in `failing` fail; the first call is 1.
    pub fn new(bytes: Vec<u8>, chunk: usize, failing: Vec<u32>) -> MemSource
        requires { 1 ≤ chunk }
        ensures { result ≡ record { left = bytes.items; chunk = chunk; failing = failing.items; calls = 0; faults = 0 } }
    {
        MemSource {
            bytes,
            at: 0,
            chunk,
            failing,
            calls: 0,
            faults: 0,
        }
    }
}

impl Source for MemSource {
    ghost left = { λ s. Some s.left };

    ghost faults = { λ s. s.faults };

    fn take(&mut self, buf: &mut [u8]) -> Taken
        requires { 0 < length buf.old }
        ensures bytes { Takes (Some self.old.left) (Some self.new.left) result buf.new }
        ensures never_falls { self.old.faults ≤ self.new.faults }
        ensures failed { result ≡ Taken.Failed → Rises self.old.faults self.new.faults }
        ensures still { (result ≡ Taken.Failed → ⊥) → self.new.faults ≡ self.old.faults }

        // Which call fails, how many bytes another gives, and how the source is left.
        ensures fails { result ≡ Taken.Failed ↔ Contains self.old.failing (self.old.calls + 1) }
        ensures many { (n : ℕ) → result ≡ Taken.Bytes n → n ≡ min (min (length self.old.left) self.old.chunk) (length buf.old) }
        ensures after { self.new ≡ source_after self.old result }
    {
        let fails = is_named(&self.failing, self.calls);
        self.calls = self.calls.saturating_add(1);
        if fails {
            self.faults = self.faults.saturating_add(1);
            return Taken::Failed;
        }
        let rest = &self.bytes[self.at..];
        let count = rest.len().min(self.chunk).min(buf.len());
        if count == 0 {
            return Taken::End;
        }
        copy_front(rest, buf, count);
        self.at += count;
        Taken::Bytes(count)
    }
}

/// A sink that overwrites a room in memory from its front, of which named calls fail. It takes no memory.
#[derive(Drop)]
pub struct MemSink {
    room: Vec<u8>,
    used: usize,
    chunk: usize,
    failing: Vec<u32>,
    calls: u64,
    faults: u64,
}

impl Model for MemSink {
    ghost Value = { SinkState };

    ghost view = { λ s. record {
      held = take s.used s.room.items;
      room = vec_len s.room - s.used;
      chunk = s.chunk;
      failing = s.failing.items;
      calls = s.calls;
      faults = s.faults;
    } };

    ghost invariant = { λ s. (s.used ≤ vec_len s.room) × (1 ≤ s.chunk) };
}

impl MemSink {
    /// A sink that holds nothing yet and has room for as many bytes as `room` has. It takes at most `chunk` bytes a call.
    /// The calls named in `failing` fail, and those that find no room left; the first call is 1.
    pub fn new(room: Vec<u8>, chunk: usize, failing: Vec<u32>) -> MemSink
        requires { 1 ≤ chunk }
        ensures { result ≡ record { held = []; room = vec_len room; chunk = chunk; failing = failing.items; calls = 0; faults = 0 } }
    {
        MemSink {
            room,
            used: 0,
            chunk,
            failing,
            calls: 0,
            faults: 0,
        }
    }

    /// The bytes that it has taken.
    pub fn held(&self) -> &[u8]
        ensures { result.now ≡ self.now.held }
    {
        &self.room[..self.used]
    }
}

impl Sink for MemSink {
    ghost holds = { λ s. Some s.held };

    ghost faults = { λ s. s.faults };

    fn give(&mut self, piece: &[u8]) -> Given
        requires { 0 < length piece.now }
        ensures bytes { Gives (Some self.old.held) (Some self.new.held) result piece.now }
        ensures never_falls { self.old.faults ≤ self.new.faults }
        ensures failed { result ≡ Given.Failed → Rises self.old.faults self.new.faults }
        ensures still { (result ≡ Given.Failed → ⊥) → self.new.faults ≡ self.old.faults }

        // Which call fails, how many bytes another takes, and how the sink is left.
        ensures fails { result ≡ Given.Failed ↔ ((self.old.room ≡ 0) ⊎ Contains self.old.failing (self.old.calls + 1)) }
        ensures many { (n : ℕ) → result ≡ Given.Bytes n → n ≡ min (min self.old.room self.old.chunk) (length piece.now) }
        ensures after { self.new ≡ sink_after self.old result piece.now }
    {
        let fails = is_named(&self.failing, self.calls);
        self.calls = self.calls.saturating_add(1);
        let rest = self.room.len() - self.used;
        if rest == 0 || fails {
            self.faults = self.faults.saturating_add(1);
            return Given::Failed;
        }
        let count = rest.min(self.chunk).min(piece.len());
        let (used, end) = (self.used, self.used + count);
        self.room[used..end].copy_from_slice(&piece[..count]);
        self.used = end;
        Given::Bytes(count)
    }
}

// Whether the call after so many calls is named.
fn is_named(failing: &[u32], calls: u64) -> bool
    ensures { IsTrue result ↔ Contains failing.now (calls + 1) }
{
    failing
        .iter()
        .any(|&name| u64::from(name).checked_sub(1) == Some(calls))
}

// Copies the first bytes of one slice to the front of another.
pub(crate) fn copy_front(from: &[u8], into: &mut [u8], count: usize)
    requires from { count ≤ length from.now }
    requires into { count ≤ length into.old }
    ensures { take count into.new ≡ take count from.now }
{
    into[..count].copy_from_slice(&from[..count]);
}
