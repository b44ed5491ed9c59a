//! Rows of events.
ghost use Rattle.std.specs.Prelude.{◌≡◌, ◌<◌, ◌/◌, ◌%◌, true, Some, is_some};
ghost use Rattle.lazy_rec.specs.Numbering.{op_of_number};
ghost use Rattle.lazy_rec.specs.History.{second_mark};
ghost use Rattle.heap_store.specs.Rows.{is_ended, answer_of, ending_of, row_of, caller_of_word, is_begun_word, word};
ghost use Rattle.heap_store.specs.Legal.{ending_in_range};
ghost use Rattle.version_book.specs.Closed.{version_in, ended_told, told_of, IsReadable};
ghost use Rattle.version_book.specs.Replies.{reply_of_told};

use crate::words::{FULL, MEMORY, REPLIED, op_of, reply_of, second_version, version_of};
use heap_store::Version;
use lazy_rec::{Event, Reply, is_second};

/// How an event ended: with a reply and a version, a split with a second version too; without them, since a reserve was
/// refused with these numbers, since memory couldn't be had, or since a base has no version.
#[derive(Clone, Copy, Debug, PartialEq, Eq)]
pub enum Ended {
    Reply {
        reply: Reply,
        version: Version,
        second: Option<Version>,
    },
    Full {
        drawn: u64,
        wanted: u32,
    },
    Memory,
    NoBase,
}

impl Ended {
    /// The version with a number, where the row has it: the first, or the second one.
    #[inline(always)]
    pub fn version(&self, number: u32) -> Option<Version>
        ensures { result ≡ version_in number self.now }
    {
        match *self {
            Ended::Reply { second, .. } if is_second(number) => second,
            Ended::Reply { version, .. } => Some(version),
            _ => None,
        }
    }
}

/// The row of an event: its name, the number of the caller that drew the name, the event, whether it was begun, and how it
/// ended.
#[derive(Clone, Copy, Debug, PartialEq, Eq)]
pub struct Row {
    pub name: u32,
    pub caller: u32,
    pub event: Event,
    pub begun: bool,
    pub ended: Ended,
}

/// How a row ended with a reply, by its words.
#[inline(always)]
fn replied(name: u32, words: &[u64; 8]) -> Ended
    requires low { name < second_mark }
    requires answered { is_ended (answer_of name words.now) ≡ true }
    ensures { ended_told (answer_of name words.now) ≡ Some result }
{
    let version = version_of(name, words[3]);
    Ended::Reply {
        reply: reply_of(words[4], words[7]),
        version,
        second: second_version(name, words[6], &version),
    }
}

/// How a row ended, by its words.
#[inline(always)]
fn ended_of(name: u32, words: &[u64; 8]) -> Ended
    requires low { name < second_mark }
    requires ended { is_ended (ending_of name words.now) ≡ true }
    requires range { ending_in_range (ending_of name words.now) ≡ true }
    ensures { ended_told (ending_of name words.now) ≡ Some result }
{
    match words[5] {
        REPLIED => replied(name, words),
        FULL => Ended::Full {
            drawn: words[4] % 0x1_0000_0000,
            wanted: (words[4] >> 32) as u32,
        },
        MEMORY => Ended::Memory,
        _ => Ended::NoBase,
    }
}

/// The row of a name whose words say that it has ended. Inlined, so that a caller decodes only what it reads.
#[inline(always)]
pub(crate) fn row_of(name: u32, words: &[u64; 8]) -> Row
    requires { IsReadable name words.now }
    ensures { told_of name (row_of name words.now) ≡ Some result }
{
    let first = words[0];
    let begun = first % 2 == 1;
    let half = (first % 256 / 2) as u32;
    Row {
        name,
        caller: if begun { half } else { half.saturating_sub(1) },
        event: Event {
            op: op_of(first / 256),
            base: (words[1] % 0x1_0000_0000) as u32,
            other: (words[1] >> 32) as u32,
            arg: words[2],
        },
        begun,
        ended: ended_of(name, words),
    }
}

/// The reply that such a row tells, where it has one. No other of its words is read.
#[inline(always)]
pub(crate) fn reply_of_row(name: u32, words: &[u64; 8]) -> Option<Reply>
    requires { IsReadable name words.now }
    ensures { result ≡ reply_of_told (told_of name (row_of name words.now)) }
{
    if words[5] == REPLIED {
        return Some(reply_of(words[4], words[7]));
    }
    None
}
