//! The row of one event: begun, skipped and ended, word by word.
ghost use Rattle.std.specs.Prelude.{◌≡◌, ◌<◌, ◌≤◌, true, false, Some, None};
ghost use Rattle.lazy_rec.specs.declared.limits.TheConstants.{MOST_DRAWN, MOST_PLACES};
ghost use Rattle.heap_store.specs.Rows.{Row, row_at, store_word};
ghost use Rattle.heap_store.specs.Rows.Ending.{answered, full, memory};
ghost use Rattle.heap_store.specs.Legal.{reply_in_range};
ghost use Rattle.heap_store.specs.Budget.{direct_at};
ghost use Rattle.heap_store.specs.Causes.{IsFullCause, given_back_count};
ghost use Rattle.heap_store.specs.RowCalls.{MayStore};
ghost use Rattle.version_book.specs.RowSteps.{IsCaller, IsDrawn, IsNextEvent, MayBegin, HasLostBase, IsWorking, Answers, Begun, RowEnded, Skipped};
ghost use Rattle.version_book.specs.RowWords.{MayPut, WordPut, ReplyPut, RowStarted};

use crate::words::{
    FULL, MEMORY, NO_BASE, REPLIED, bases_word, first_word, full_word, reply_word, version_word,
};
use heap_store::{Full, Heap, Rows, Version};
use lazy_rec::{Event, Reply};

/// Stores another word than the first and the end word. It says nothing before they do.
fn put_word<R: Rows>(heap: &mut R, name: u32, word: u32, value: u64)
    requires { MayPut (R.view heap.old) name word value }
    ensures { WordPut (R.view heap.old) (R.view heap.new) name word value }
{
    heap.store_row(name, word, value);
}

/// Stores the first three words, word 0 last: with it there is a row.
fn start_row<R: Rows>(heap: &mut R, caller: u32, name: u32, event: &Event, begun: bool)
    requires caller { IsCaller (R.view heap.old) caller }
    requires drawn { IsDrawn (R.view heap.old) name }
    requires event { IsNextEvent (R.view heap.old) name event.now }
    requires bases { begun ≡ true → MayBegin (R.view heap.old) name event.now }
    ensures { RowStarted (R.view heap.old) (R.view heap.new) caller name event.now begun }
{
    put_word(heap, name, 1, bases_word(event.base, event.other));
    put_word(heap, name, 2, event.arg);
    heap.store_row(name, 0, first_word(caller, event.op, begun));
}

/// Begins an event whose bases are answered.
pub(crate) fn begin<R: Rows>(heap: &mut R, caller: u32, name: u32, event: &Event)
    requires caller { IsCaller (R.view heap.old) caller }
    requires drawn { IsDrawn (R.view heap.old) name }
    requires event { MayBegin (R.view heap.old) name event.now }
    ensures { Begun (R.view heap.old) (R.view heap.new) caller name event.now }
{
    start_row(heap, caller, name, event, true);
}

/// Stores a reply: word 4, and word 7 where it is a number.
fn put_reply<R: Rows>(heap: &mut R, name: u32, reply: Reply)
    requires { IsWorking (R.view heap.old) name false }
    ensures put { ReplyPut (R.view heap.old) (R.view heap.new) name reply }
    ensures range { reply_in_range reply ≡ true }
{
    put_word(heap, name, 4, reply_word(reply));
    let Reply::Number(number) = reply else {
        return;
    };
    put_word(heap, name, 7, number);
}

/// Stores the end word.
fn end_row<R: Rows>(heap: &mut R, name: u32, code: u64)
    requires { MayStore (R.view heap.old) name 5 code }
    ensures { (r : Row) → row_at (store_word (R.view heap.old).seen name 5 code) name ≡ Some r → RowEnded (R.view heap.old) (R.view heap.new) name r }
{
    heap.store_row(name, 5, code);
}

/// Ends the event with a reply and its version.
pub(crate) fn end_with_reply<R: Rows>(heap: &mut R, reply: Reply, version: Version)
    requires working { IsWorking (R.view heap.old) version.name false }
    requires answers { (r : Row) → row_at (R.view heap.old).seen version.name ≡ Some r → Answers (R.view heap.old).seen r.event reply version }
    requires place { version.root.0 < MOST_PLACES }
    ensures { (r : Row) → row_at (R.view heap.old).seen version.name ≡ Some r → RowEnded (R.view heap.old) (R.view heap.new) version.name (record r { ending = answered reply version None }) }
{
    let name = version.name;
    put_word(
        heap,
        name,
        3,
        version_word(version.root, version.kind, version.size),
    );
    put_reply(heap, name, reply);
    end_row(heap, name, REPLIED);
}

/// Ends the event without a version, since its last reserve was refused.
pub(crate) fn end_full<R: Rows>(heap: &mut R, name: u32, refusal: Full)
    requires working { IsWorking (R.view heap.old) name true }
    requires last { refusal ≡ (R.view heap.old).refusals.last }
    requires drawn { refusal.drawn ≤ MOST_DRAWN }
    requires cause { IsFullCause (R.view heap.old).seen (direct_at (R.view heap.old).seen name) refusal.wanted }
    ensures { (r : Row) → row_at (R.view heap.old).seen name ≡ Some r → RowEnded (R.view heap.old) (R.view heap.new) name (record r { ending = full refusal.drawn refusal.wanted }) }
{
    put_word(heap, name, 4, full_word(refusal));
    end_row(heap, name, FULL);
}

/// Ends the event without a version for want of memory.
pub(crate) fn end_for_memory<R: Rows>(heap: &mut R, name: u32)
    requires working { IsWorking (R.view heap.old) name false }
    requires cause { 64 ≤ given_back_count (R.view heap.old).seen }
    ensures { (r : Row) → row_at (R.view heap.old).seen name ≡ Some r → RowEnded (R.view heap.old) (R.view heap.new) name (record r { ending = memory }) }
{
    end_row(heap, name, MEMORY);
}

/// Stores that an event was skipped, since one of its bases is given up.
pub(crate) fn skip<R: Rows>(heap: &mut R, caller: u32, name: u32, event: &Event)
    requires caller { IsCaller (R.view heap.old) caller }
    requires drawn { IsDrawn (R.view heap.old) name }
    requires event { IsNextEvent (R.view heap.old) name event.now }
    requires lost { HasLostBase (R.view heap.old) event.now }
    ensures { Skipped (R.view heap.old) (R.view heap.new) caller name event.now }
{
    start_row(heap, caller, name, event, false);
    end_row(heap, name, NO_BASE);
}
