//! The eight words of a row: what they are for an event and its end, and what they tell.
ghost use Rattle.std.specs.Prelude.{◌≡◌, ℕ, ◌+◌, ◌*◌, ◌/◌, ◌%◌, ◌^◌, ◌<◌, ◌≤◌, true, Some, is_some, slice_get};
ghost use Rattle.lazy_rec.specs.declared.limits.TheConstants.{MOST_DRAWN, MOST_PLACES};
ghost use Rattle.lazy_rec.specs.Numbering.{kind_of_number, op_of_number};
ghost use Rattle.lazy_rec.specs.History.{second_mark};
ghost use Rattle.heap_store.specs.Rows.{reply_of_words, version_of_word, second_of_word};
ghost use Rattle.heap_store.specs.Legal.{reply_in_range};
ghost use Rattle.heap_store.specs.RowCalls.{is_word_value};
ghost use Rattle.version_book.specs.Words.{AreReplyWords, number_after, IsFirstWord, IsBasesWord, IsVersionWord};

use heap_store::{Full, Version};
use lazy_rec::events::{number_tells_kind, number_tells_op};
use lazy_rec::{Kind, Op, Ref, Reply, SECOND};

/// The end word of a row that ended with a reply.
pub const REPLIED: u64 = 1;
/// The end word of a row that ended full.
pub const FULL: u64 = 2;
/// The end word of a row that ended for want of memory.
pub const MEMORY: u64 = 3;
/// The end word of a row that was skipped, since a base is given up.
pub const NO_BASE: u64 = 4;

/// The number of a kind, from 0.
#[inline]
fn kind_number(kind: Kind) -> u64
    ensures number { kind_of_number result ≡ Some kind }
    ensures small { result < 8 }
{
    number_tells_kind(kind);
    u64::from(kind.number())
}

/// The number of an operation in word 0.
#[inline]
fn op_number(op: Op) -> u64
    ensures number { op_of_number result ≡ Some op }
    ensures small { result < 64 }
{
    number_tells_op(op);
    u64::from(op.number())
}

/// The kind with a number, which is below 8. The remainder is the number itself, and costs less than a test.
#[inline(always)]
fn kind_of(number: u64) -> Kind
    requires { is_some (kind_of_number number) ≡ true }
    ensures { kind_of_number number ≡ Some result }
{
    match Kind::of_number((number % 8) as u32) {
        Some(kind) => kind,
        None => unreachable!(),
    }
}

/// The operation with a number.
#[inline(always)]
pub(crate) fn op_of(number: u64) -> Op
    requires { is_some (op_of_number number) ≡ true }
    ensures { op_of_number number ≡ Some result }
{
    match Op::of_number(number as u32) {
        Some(op) => op,
        None => unreachable!(),
    }
}

/// Word 0 of a row of a caller and an operation: begun, or skipped.
#[inline(always)]
pub fn first_word(caller: u32, op: Op, begun: bool) -> u64
    requires { caller < 64 }
    ensures { IsFirstWord result caller op begun }
{
    let low = if begun {
        1 + 2 * u64::from(caller)
    } else {
        2 * (u64::from(caller) + 1)
    };
    256 * op_number(op) + low
}

/// Word 1: the base, and from bit 32 on the other.
#[inline(always)]
pub fn bases_word(base: u32, other: u32) -> u64
    ensures { IsBasesWord result base other }
{
    u64::from(base) + (u64::from(other) << 32)
}

/// Word 3: the root's place, from bit 22 on the kind's number, and from bit 32 on the size.
#[inline(always)]
pub fn version_word(root: Ref, kind: Kind, size: u32) -> u64
    requires place { root.0 < MOST_PLACES }
    requires size { size < 2147483648 }
    ensures { IsVersionWord result root kind size }
{
    u64::from(root.0) + (kind_number(kind) << 22) + (u64::from(size) << 32)
}

/// Word 4 of a row that ended with a reply. Word 7 has the number where it is one.
#[inline(always)]
pub fn reply_word(reply: Reply) -> u64
    ensures words { (before : ℕ) → AreReplyWords result (number_after reply before) reply }
    ensures range { reply_in_range reply ≡ true }
    ensures fits { is_word_value 4 result ≡ true }
{
    match reply {
        Reply::Ok => 0,
        Reply::Empty => 1,
        Reply::TooLong => 2,
        Reply::Number(_) => 3,
    }
}

/// Word 4 of a row that ended full: the drawn number, and from bit 32 on the wanted one.
pub fn full_word(full: Full) -> u64
    requires { full.drawn ≤ MOST_DRAWN }
    ensures drawn { result % 2 ^ 32 ≡ full.drawn }
    ensures wanted { result / 2 ^ 32 ≡ full.wanted }
    ensures fits { is_word_value 4 result ≡ true }
{
    full.drawn + (u64::from(full.wanted) << 32)
}

/// The first version of a name, by word 3.
#[inline(always)]
pub fn version_of(name: u32, word: u64) -> Version
    requires { is_some (version_of_word name word) ≡ true }
    ensures { version_of_word name word ≡ Some result }
{
    Version {
        name,
        kind: kind_of((word >> 22) % 1024),
        size: (word >> 32) as u32,
        root: Ref((word % 4_194_304) as u32),
    }
}

/// The second version of a name, by word 6, where there is one. It has the first one's kind.
#[inline(always)]
pub fn second_version(name: u32, word: u64, first: &Version) -> Option<Version>
    requires { name < second_mark }
    ensures { result ≡ second_of_word name word first.now }
{
    if word == 0 {
        return None;
    }
    Some(Version {
        name: name + SECOND,
        kind: first.kind,
        size: (word / 0x1_0000_0000) as u32,
        root: Ref((word % 0x1_0000_0000) as u32),
    })
}

/// The reply that words 4 and 7 tell.
#[inline(always)]
pub fn reply_of(word: u64, number: u64) -> Reply
    ensures { result ≡ reply_of_words word number }
{
    match word {
        1 => Reply::Empty,
        2 => Reply::TooLong,
        3 => Reply::Number(number),
        _ => Reply::Ok,
    }
}
