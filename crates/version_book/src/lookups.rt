//! How a version is looked up.
ghost use Rattle.std.specs.Prelude.{◌≡◌, ◌≤◌};
ghost use Rattle.lazy_rec.specs.History.{event_name};
ghost use Rattle.heap_store.specs.View.{Quiet};
ghost use Rattle.version_book.specs.Calls.{Shown};

use crate::answers::Look;
use crate::words::{REPLIED, second_version, version_of};
use heap_store::{Heap, Rows};
use lazy_rec::{event_name, is_second};

/// The version with a number, as the words of its event's row show it, the end word first.
pub fn look<R: Rows>(heap: &mut R, version: u32) -> Look
    requires low { 1 ≤ event_name version }
    requires high { event_name version ≤ (R.view heap.old).about.rows }
    ensures quiet { Quiet (R.view heap.old) (R.view heap.new) }
    ensures look { Shown (R.view heap.new).seen version result }
{
    let name = event_name(version);
    let end = heap.load_row(name, 5);
    if end == 0 {
        return Look::NotYet;
    }
    if end != REPLIED {
        return Look::GivenUp;
    }
    let first = version_of(name, heap.load_row(name, 3));
    if !is_second(version) {
        return Look::Found(first);
    }
    match second_version(name, heap.load_row(name, 6), &first) {
        Some(second) => Look::Found(second),
        None => Look::GivenUp,
    }
}
