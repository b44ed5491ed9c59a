//! What the calls on a pass take and answer.

use heap_store::{Full, NamesFull, Version};
use lazy_rec::Reply;
use thiserror::Error;

/// A name that a pass has drawn, with the pass's number of its caller. It must be spent, by one of the calls that take it; a
/// ticket of another pass is refused by their condition that this pass has drawn the name.
#[derive(Debug, PartialEq, Eq)]
pub struct Ticket {
    pub name: u32,
    pub caller: u32,
}

/// The row of an event that ended with a reply: its name, the reply, and its version; a split has a second one.
#[derive(Clone, Copy, Debug, PartialEq, Eq)]
pub struct Entry {
    pub name: u32,
    pub reply: Reply,
    pub version: Version,
    pub second: Option<Version>,
}

/// Why a call made no version. After the last two the ticket is spent, and its row says full or memory for good.
#[derive(Clone, Copy, Debug, PartialEq, Eq, Error)]
pub enum Refuse {
    #[error(transparent)]
    NamesFull(NamesFull),
    #[error(transparent)]
    StoreFull(Full),
    #[error("{}", lazy_rec::NoMemory)]
    NoMemory,
}

/// What a look at a version tells: the version, or that its event hasn't ended, or that it has ended without that version.
#[derive(Clone, Copy, Debug, PartialEq, Eq)]
pub enum Look {
    Found(Version),
    NotYet,
    GivenUp,
}

/// How many names and how many places are drawn.
#[derive(Clone, Copy, Debug, PartialEq, Eq)]
pub struct Tally {
    pub names: u64,
    pub nodes: u64,
}
