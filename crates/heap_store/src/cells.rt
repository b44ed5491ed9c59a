//! Places that may be pending, and the cells of streams and lists.
ghost use Rattle.std.specs.Prelude.{◌≡◌, ℕ, ◌<◌, true, Some, length, option_map};
ghost use Rattle.lazy_rec.specs.Meaning.{cells};
ghost use Rattle.heap_store.specs.World.{recs, holds, is_published, is_value, value_at};
ghost use Rattle.heap_store.specs.Values.{value_place, is_stream_part, is_list};
ghost use Rattle.heap_store.specs.View.{Quiet};

use crate::heap::Heap;
use lazy_rec::{Rec, Ref, SuspState};

/// A cell of a stream or a list: an item, or a list's place where `child` is true, and the place after it.
#[derive(Clone, Copy, Debug, PartialEq, Eq)]
pub struct Cell {
    pub child: bool,
    pub value: u64,
    pub rest: Ref,
}

/// The place of a value: the place itself, or the one with which a suspension is done; `None` while it isn't done. The
/// load that shows so is the last call of the heap: a need is answered right after it, since a later call may show it done.
pub fn value_place<H: Heap>(h: &mut H, p: Ref) -> Option<Ref>
    requires { is_published (recs (H.view h.old).seen) p.0 ≡ true }
    ensures quiet { Quiet (H.view h.old) (H.view h.new) }
    ensures place { value_place (H.view h.new).seen p.0 ≡ option_map (λ (q : Ref). q.0) result }
{
    if !h.read(p).is_pending() {
        return Some(p);
    }
    match h.state(p) {
        SuspState::Done { place, .. } => Some(place),
        SuspState::Unforced { .. } | SuspState::Claimed { .. } => None,
    }
}

/// The record of the value of a place that is a value or done.
pub fn value_of<H: Heap>(h: &mut H, p: Ref) -> Rec
    requires { is_value (H.view h.old).seen p.0 ≡ true }
    ensures quiet { Quiet (H.view h.old) (H.view h.new) }
    ensures value { value_at (H.view h.old).seen p.0 ≡ Some result }
{
    let rec = h.read(p);
    if !rec.is_pending() {
        return rec;
    }
    match h.state(p) {
        SuspState::Done { place, .. } => h.read(place),
        SuspState::Unforced { .. } | SuspState::Claimed { .. } => unreachable!(),
    }
}

/// The first cell of a stream that is a value or done.
pub fn first_cell<H: Heap>(h: &mut H, p: Ref) -> Cell
    requires stream { holds (recs (H.view h.old).seen) p.0 is_stream_part ≡ true }
    requires known { is_value (H.view h.old).seen p.0 ≡ true }
    requires some { 0 < length (cells (recs (H.view h.old).seen) p.0) }
    ensures quiet { Quiet (H.view h.old) (H.view h.new) }
    ensures cell { value_at (H.view h.old).seen p.0 ≡ Some (Rec.Cons result.child result.value result.rest) }
{
    match value_of(h, p) {
        Rec::Cons { child, value, rest } => Cell { child, value, rest },
        _ => unreachable!(),
    }
}

/// The first cell of a list.
pub fn list_cell<H: Heap>(h: &mut H, p: Ref) -> Cell
    requires list { holds (recs (H.view h.old).seen) p.0 is_list ≡ true }
    requires some { 0 < length (cells (recs (H.view h.old).seen) p.0) }
    ensures quiet { Quiet (H.view h.old) (H.view h.new) }
    ensures cell { recs (H.view h.old).seen p.0 ≡ Some (Rec.LCons result.child result.value result.rest) }
{
    match h.read(p) {
        Rec::LCons { child, value, rest } => Cell { child, value, rest },
        _ => unreachable!(),
    }
}
