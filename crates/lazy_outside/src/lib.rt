//! The outside as the rest sees it: where bytes come from, where bytes go, and where workers may be held up. Beside the
//! traits stand sources and sinks in memory, the standard ends, and the two calls that read a source to its end and write
//! a text whole.
//!
//! `Source` and `Sink` stand beside std's `Read` and `Write` for what contracts above have to say of failures. Each end
//! counts its failed calls, so a fault is answered only where a call failed, and a success only where none did. A failed
//! call takes and gives nothing, and the end comes only where nothing is left. An end tells its bytes, as those in memory
//! do, or tells none, as the standard ends. An error's kind and an interrupted call are not seen above.
#![tactic(auto)]

mod gates;
mod memory;
mod streams;
mod sure;
mod whole;

ghost use Rattle.std.specs.Prelude.{◌≡◌, ℕ, ◌<◌, ◌≤◌, List, length, Option};
ghost use Rattle.lazy_outside.specs.Bytes.{Takes, Gives};
ghost use Rattle.lazy_outside.specs.Faults.{Rises};

pub use gates::{Gate, OpenGate, Point};
pub use memory::{MemSink, MemSource};
pub use streams::{StdSink, StdSource};
pub use sure::{SureSink, SureSource};
pub use whole::{MOST_BYTES, ReadError, WriteError, read_whole, write_whole};

/// The answer of a take.
#[derive(Clone, Copy, Debug, PartialEq, Eq)]
pub enum Taken {
    /// So many bytes, at least one, stand at the front of the buffer.
    Bytes(usize),
    /// Nothing is left.
    End,
    /// The call failed, and nothing was taken.
    Failed,
}

/// The answer of a give.
#[derive(Clone, Copy, Debug, PartialEq, Eq)]
pub enum Given {
    /// So many bytes of the piece, at least one, were taken off its front.
    Bytes(usize),
    /// The call failed. Where the sink tells its bytes, nothing of the piece was taken.
    Failed,
}

/// Where bytes come from.
pub trait Source {
    /// The bytes that are left, where the source tells them.
    ghost left: { Self → Option (List ℕ) };

    /// How many takes have failed. It never falls.
    ghost faults: { Self → ℕ };

    /// Takes the next bytes into the front of the buffer, which isn't empty. What stands behind them is left open.
    fn take(&mut self, buf: &mut [u8]) -> Taken
        requires { 0 < length buf.old }
        ensures bytes { Takes (left self.old) (left self.new) result buf.new }
        ensures never_falls { faults self.old ≤ faults self.new }
        ensures failed { result ≡ Taken.Failed → Rises (faults self.old) (faults self.new) }
        ensures still { (result ≡ Taken.Failed → ⊥) → faults self.new ≡ faults self.old };
}

/// Where bytes go.
pub trait Sink {
    /// The bytes that it holds, where the sink tells them.
    ghost holds: { Self → Option (List ℕ) };

    /// How many gives have failed. It never falls.
    ghost faults: { Self → ℕ };

    /// Gives the front of a piece, which isn't empty.
    fn give(&mut self, piece: &[u8]) -> Given
        requires { 0 < length piece.now }
        ensures bytes { Gives (holds self.old) (holds self.new) result piece.now }
        ensures never_falls { faults self.old ≤ faults self.new }
        ensures failed { result ≡ Given.Failed → Rises (faults self.old) (faults self.new) }
        ensures still { (result ≡ Given.Failed → ⊥) → faults self.new ≡ faults self.old };
}

#[cfg(test)]
mod tests;
