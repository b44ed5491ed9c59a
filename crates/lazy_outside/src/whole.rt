//! Reads a source to its end, and writes a text whole.
ghost use Rattle.std.specs.Prelude.{◌≡◌, ℕ, ◌+◌, ◌≤◌, ◌<◌, List, length, vec_len, take, IfOk, OnOk, OnErr, IsErrOf};
ghost use Rattle.std.specs.Io.KnownBytes.{Appends, Consumes};
ghost use Rattle.lazy_outside.specs.Bytes.{TakesAll};
ghost use Rattle.lazy_outside.specs.Faults.{Rises};

use crate::{Given, Sink, Source, Taken};
use std::alloc::{AllocError, Global};
use thiserror::Error;

/// The most bytes that are read: as many as a script's text may have. `lazy_rec` names that limit too; this crate stands on no
/// other of the workspace.
pub const MOST_BYTES: usize = 16_777_216;

// How many bytes more there is room for at a time.
const STEP: usize = 65_536;

// What stands in room until it is filled. It is copied by pieces, since `memset` stores what is longer byte by byte.
static ZEROS: [u8; 1_024] = [0; 1_024];

/// Why a source was not read to its end.
#[derive(Clone, Copy, Debug, PartialEq, Eq, Error)]
pub enum ReadError {
    /// It gave one byte more than is read.
    #[error("larger than {} bytes", MOST_BYTES)]
    TooLarge,
    /// A take failed.
    #[error("read fault")]
    Failed,
    /// There was no memory for the bytes.
    #[error("out of memory")]
    NoMemory,
}

/// A give failed.
#[derive(Clone, Copy, Debug, PartialEq, Eq, Error)]
#[error("write fault")]
pub struct WriteError;

/// Takes bytes until the end, and answers all of them. What was taken before an error is lost.
///
/// # Errors
///
/// `TooLarge` as soon as one byte more than `MOST_BYTES` was taken, `Failed` as soon as a take failed, and `NoMemory` where
/// there is no room for the bytes.
pub fn read_whole<S: Source>(alloc: Global, source: &mut S) -> Result<Vec<u8>, ReadError>
    ensures few { IfOk result (λ v. vec_len v ≤ MOST_BYTES) }
    ensures whole { IfOk result (λ v. TakesAll (S.left source.old) (S.left source.new) v.items) }
    ensures too_large { IsErrOf result ReadError.TooLarge → (bytes : List ℕ) × (length bytes ≡ MOST_BYTES + 1)
        × Consumes (S.left source.old) (S.left source.new) bytes }
    ensures front { OnErr result ((bytes : List ℕ) × Consumes (S.left source.old) (S.left source.new) bytes) }
    ensures failed { IsErrOf result ReadError.Failed → Rises (S.faults source.old) (S.faults source.new) }
    ensures never_falls { S.faults source.old ≤ S.faults source.new }
    ensures no_fault { OnOk result (S.faults source.new ≡ S.faults source.old) }
{
    let mut bytes = Vec::new(alloc);
    let mut filled = 0;
    while filled <= MOST_BYTES {
        if make_room(&mut bytes, filled).is_err() {
            return Err(ReadError::NoMemory);
        }
        match source.take(&mut bytes[filled..]) {
            Taken::Bytes(count) => filled += count,
            Taken::End => {
                bytes.truncate(filled);
                return Ok(bytes);
            }
            Taken::Failed => return Err(ReadError::Failed),
        }
    }
    Err(ReadError::TooLarge)
}

// Sees to it that there is room behind the bytes that are filled.
fn make_room(bytes: &mut Vec<u8>, filled: usize) -> Result<(), AllocError>
    requires filled { filled ≤ vec_len bytes.old }
    requires few { filled ≤ MOST_BYTES }
    requires within { vec_len bytes.old ≤ MOST_BYTES + 1 }
    ensures kept { take filled bytes.new.items ≡ take filled bytes.old.items }
    ensures within { vec_len bytes.new ≤ MOST_BYTES + 1 }
    ensures room { OnOk result (filled < vec_len bytes.new) }
{
    if filled < bytes.len() {
        return Ok(());
    }
    let len = (filled + STEP).min(MOST_BYTES + 1);
    while bytes.len() + ZEROS.len() <= len {
        bytes.extend_from_slice(&ZEROS)?;
    }
    bytes.resize(len, 0)
}

/// Gives the whole rest of a text again and again until nothing is left.
///
/// # Errors
///
/// A `WriteError` as soon as a give failed. Then a sink that tells its bytes took a part of the text from its front, and not
/// the whole.
#[tactic(auto, using(crate::proofs::Moves::Appends_front))]
pub fn write_whole<K: Sink>(sink: &mut K, text: &[u8]) -> Result<(), WriteError>
    ensures whole { OnOk result (Appends (K.holds sink.old) (K.holds sink.new) text.now) }
    ensures front { OnErr result ((n : ℕ) × (n < length text.now)
        × Appends (K.holds sink.old) (K.holds sink.new) (take n text.now)) }
    ensures failed { OnErr result (Rises (K.faults sink.old) (K.faults sink.new)) }
    ensures never_falls { K.faults sink.old ≤ K.faults sink.new }
    ensures no_fault { OnOk result (K.faults sink.new ≡ K.faults sink.old) }
{
    let mut given = 0;
    while given < text.len() {
        match sink.give(&text[given..]) {
            Given::Bytes(count) => given += count,
            Given::Failed => return Err(WriteError),
        }
    }
    Ok(())
}
