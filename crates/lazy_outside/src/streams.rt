//! Standard input and standard output. Contracts say what the system's answer to a call means and how failed calls are
//! counted; what standard input gives and what standard output takes no contract can say.
ghost use Rattle.std.specs.Prelude.{◌≡◌, ◌<◌, ◌≤◌, ℕ, None, length};
ghost use Rattle.std.specs.Io.KnownBytes.{Keeps};
ghost use Rattle.lazy_outside.specs.Bytes.{Gives, Takes};
ghost use Rattle.lazy_outside.specs.Faults.{Rises, faults_after_give, faults_after_take};
ghost use Rattle.lazy_outside.specs.System.{given_of, taken_of};

use crate::{Given, Sink, Source, Taken};
use std::io;
use std::io::{ErrorKind, Read, Stdin, Stdout, Write};
use std::marker::Model;

// What the answer to a read into a buffer that isn't empty means; nothing where a signal interrupted the call.
fn taken_of(answer: &io::Result<usize>) -> Option<Taken>
    ensures { result ≡ taken_of answer.now }
{
    match answer {
        Ok(0) => Some(Taken::End),
        Ok(count) => Some(Taken::Bytes(*count)),
        Err(error) => match error.kind() {
            ErrorKind::Interrupted => None,
            _ => Some(Taken::Failed),
        },
    }
}

// What the answer to a write of a piece that isn't empty means; nothing where a signal interrupted the call.
fn given_of(answer: &io::Result<usize>) -> Option<Given>
    ensures { result ≡ given_of answer.now }
{
    match answer {
        Ok(0) => Some(Given::Failed),
        Ok(count) => Some(Given::Bytes(*count)),
        Err(error) => match error.kind() {
            ErrorKind::Interrupted => None,
            _ => Some(Given::Failed),
        },
    }
}

// Reads once, and again where a signal interrupted the call, as std's readers do.
pub(crate) fn take_from<R: Read>(reader: &mut R, buf: &mut [u8]) -> Taken
    requires { 0 < length buf.old }
    ensures { Takes (R.remaining reader.old) (R.remaining reader.new) result buf.new }
{
    for _ in 0..u64::MAX {
        if let Some(taken) = taken_of(&reader.read(buf)) {
            return taken;
        }
    }
    Taken::Failed
}

// Writes once, and again where a signal interrupted the call, as std's writers do.
pub(crate) fn give_to<W: Write>(writer: &mut W, piece: &[u8]) -> Given
    requires { 0 < length piece.now }
    ensures { Gives (W.contents writer.old) (W.contents writer.new) result piece.now }
{
    for _ in 0..u64::MAX {
        if let Some(given) = given_of(&writer.write(piece)) {
            return given;
        }
    }
    Given::Failed
}

// Flushes once, and again where a signal interrupted the call. Answers whether it was flushed.
pub(crate) fn flush<W: Write>(writer: &mut W) -> bool
    ensures { Keeps (W.contents writer.old) (W.contents writer.new) }
{
    for _ in 0..u64::MAX {
        match writer.flush() {
            Ok(()) => return true,
            Err(error) if error.kind() == ErrorKind::Interrupted => {}
            Err(_) => return false,
        }
    }
    false
}

/// Standard input. A read that gives nothing is the end. Contracts see it as the count of its failed takes.
#[derive(Drop)]
pub struct StdSource {
    input: Stdin,
    faults: u64,
}

impl Model for StdSource {
    ghost Value = { ℕ };

    ghost view = { λ s. s.faults };
}

impl StdSource {
    /// Standard input, of which no take has failed.
    pub fn new(input: Stdin) -> StdSource
        ensures { result ≡ 0 }
    {
        StdSource { input, faults: 0 }
    }
}

impl Source for StdSource {
    ghost left = { λ _. None };

    ghost faults = { λ s. s };

    fn take(&mut self, buf: &mut [u8]) -> Taken
        requires { 0 < length buf.old }
        ensures bytes { Takes None None result buf.new }
        ensures never_falls { self.old ≤ self.new }
        ensures failed { result ≡ Taken.Failed → Rises self.old self.new }
        ensures still { (result ≡ Taken.Failed → ⊥) → self.new ≡ self.old }
        ensures counted { self.new ≡ faults_after_take self.old result }
    {
        let taken = take_from(&mut self.input, buf);
        if taken == Taken::Failed {
            self.faults = self.faults.saturating_add(1);
        }
        taken
    }
}

/// Standard output, flushed at each piece. A write that takes nothing and a flush that fails are failed gives; where a flush
/// fails, bytes of the piece may have been written. Contracts see it as the count of its failed gives.
#[derive(Drop)]
pub struct StdSink {
    output: Stdout,
    faults: u64,
}

impl Model for StdSink {
    ghost Value = { ℕ };

    ghost view = { λ s. s.faults };
}

impl StdSink {
    /// Standard output, of which no give has failed.
    pub fn new(output: Stdout) -> StdSink
        ensures { result ≡ 0 }
    {
        StdSink { output, faults: 0 }
    }
}

impl Sink for StdSink {
    ghost holds = { λ _. None };

    ghost faults = { λ s. s };

    fn give(&mut self, piece: &[u8]) -> Given
        requires { 0 < length piece.now }
        ensures bytes { Gives None None result piece.now }
        ensures never_falls { self.old ≤ self.new }
        ensures failed { result ≡ Given.Failed → Rises self.old self.new }
        ensures still { (result ≡ Given.Failed → ⊥) → self.new ≡ self.old }
        ensures counted { self.new ≡ faults_after_give self.old result }
    {
        let given = give_to(&mut self.output, piece);
        if given != Given::Failed && flush(&mut self.output) {
            return given;
        }
        self.faults = self.faults.saturating_add(1);
        Given::Failed
    }
}
