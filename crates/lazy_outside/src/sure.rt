//! A source and a sink that never fail.
ghost use Rattle.std.specs.Prelude.{◌≡◌, ℕ, ◌<◌, ◌≤◌, min, List, Some, None, length, vec_len, drop};
ghost use Rattle.lazy_outside.specs.Bytes.{Takes};

use crate::memory::copy_front;
use crate::{Given, Sink, Source, Taken};
use std::marker::Model;

/// A source over bytes in memory that never fails. Contracts see it as the bytes that it has left.
#[derive(Drop)]
pub struct SureSource {
    bytes: Vec<u8>,
    at: usize,
}

impl Model for SureSource {
    ghost Value = { List ℕ };

    ghost view = { λ s. drop s.at s.bytes.items };

    ghost invariant = { λ s. s.at ≤ vec_len s.bytes };
}

impl SureSource {
    /// A source that gives these bytes.
    pub fn new(bytes: Vec<u8>) -> SureSource
        ensures { result ≡ bytes.items }
    {
        SureSource { bytes, at: 0 }
    }
}

impl Source for SureSource {
    ghost left = { λ s. Some s };

    ghost faults = { λ _. 0 };

    fn take(&mut self, buf: &mut [u8]) -> Taken
        requires { 0 < length buf.old }
        ensures bytes { Takes (Some self.old) (Some self.new) result buf.new }
        ensures never_fails { result ≡ Taken.Failed → ⊥ }
        ensures many { (n : ℕ) → result ≡ Taken.Bytes n → n ≡ min (length self.old) (length buf.old) }
    {
        let rest = &self.bytes[self.at..];
        let count = rest.len().min(buf.len());
        if count == 0 {
            return Taken::End;
        }
        copy_front(rest, buf, count);
        self.at += count;
        Taken::Bytes(count)
    }
}

/// A sink that takes each piece whole and keeps nothing of it.
#[derive(Clone, Copy, Debug, Default)]
pub struct SureSink;

impl SureSink {
    /// A sink for what nobody reads.
    pub fn new() -> SureSink {
        SureSink
    }
}

impl Sink for SureSink {
    ghost holds = { λ _. None };

    ghost faults = { λ _. 0 };

    fn give(&mut self, piece: &[u8]) -> Given
        requires { 0 < length piece.now }
        ensures { result ≡ Given.Bytes (length piece.now) }
    {
        Given::Bytes(piece.len())
    }
}
