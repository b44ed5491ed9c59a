//! Claims, and the answers of a heap.

use lazy_rec::Ref;
use thiserror::Error;

/// A claim in hand. `built` says that its attempt has published a place, `passed` that it has published the next
/// suspension of its family. Only contracts speak of one, as of an open row: no store keeps either where it runs.
#[derive(Clone, Copy, Debug, PartialEq, Eq)]
pub struct HeldClaim {
    pub place: Ref,
    pub built: bool,
    pub passed: bool,
}

/// The row that a hand works on: its name, and whether a reserve was refused since the row began.
#[derive(Clone, Copy, Debug, PartialEq, Eq)]
pub struct OpenRow {
    pub name: u32,
    pub refused: bool,
}

/// The answer to a claim: the claim was won, the work is done with this place, or another has the claim.
#[derive(Clone, Copy, Debug, PartialEq, Eq)]
pub enum Claim {
    Won,
    Done(Ref),
    Busy,
}

/// A reserve was refused: with `wanted` places more than the `drawn` ones the store would be too full.
#[derive(Clone, Copy, Debug, PartialEq, Eq, Error)]
#[error("store full: {wanted} places wanted where {drawn} are drawn")]
pub struct Full {
    pub drawn: u64,
    pub wanted: u32,
}

/// All names of the store's rows are drawn.
#[derive(Clone, Copy, Debug, PartialEq, Eq, Error)]
#[error("all {drawn} names are drawn")]
pub struct NamesFull {
    pub drawn: u64,
}
