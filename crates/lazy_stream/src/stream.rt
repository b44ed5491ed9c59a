//! Tops of streams.
ghost use Rattle.std.specs.Prelude.{◌≡◌, ℕ, ◌+◌, ◌≤◌, true, Some, []};
ghost use Rattle.lazy_rec.specs.Meaning.{cells, means};
ghost use Rattle.heap_store.specs.World.{recs, holds};
ghost use Rattle.heap_store.specs.Values.{items_in};
ghost use Rattle.heap_store.specs.Lawful.{is_root};
ghost use Rattle.heap_store.specs.Hand.{IsInHand};
ghost use Rattle.heap_store.specs.View.{Quiet};
ghost use Rattle.heap_store.specs.Jobs.{Filled};
ghost use Rattle.lazy_stream.specs.Stream.{IsStreamOf};

use heap_store::{Heap, Run};
use lazy_rec::{Kind, Rec, Ref};

/// The empty stream, in the one place of a run.
pub fn new_stream<H: Heap>(h: &mut H, run: &mut Run) -> Ref
    requires held { IsInHand (H.view h.old).hand run.old }
    requires size { run.old.next + 1 ≡ run.old.end }
    ensures filled { Filled (H.view h.old) (H.view h.new) run.old.next run.old.end }
    ensures spent { run.new.next ≡ run.new.end }
    ensures root { holds (recs (H.view h.new).seen) result.0 (is_root (recs (H.view h.new).seen) Kind.Stream result.0) ≡ true }
    ensures empty { means (recs (H.view h.new).seen) result.0 ≡ [] }
    ensures credits { (H.view h.old).hand.credits ≤ (H.view h.new).hand.credits }
{
    put_top(h, Ref(0), 0, run)
}

/// The first place of the stream of a root.
pub(crate) fn read_front<H: Heap>(h: &mut H, root: Ref) -> Ref
    requires { holds (recs (H.view h.old).seen) root.0 (is_root (recs (H.view h.old).seen) Kind.Stream root.0) ≡ true }
    ensures quiet { Quiet (H.view h.old) (H.view h.new) }
    ensures top { (size : ℕ) × (recs (H.view h.old).seen root.0 ≡ Some (Rec.StreamTop result size)) }
{
    match h.read(root) {
        Rec::StreamTop { cells, .. } => cells,
        _ => unreachable!(),
    }
}

/// Publishes the top of a stream of `size` cells. It shows no units.
pub(crate) fn put_top<H: Heap>(h: &mut H, front: Ref, size: u32, run: &mut Run) -> Ref
    requires stream { IsStreamOf (H.view h.old).seen front.0 size run.old.next }
    requires held { IsInHand (H.view h.old).hand run.old }
    requires size { run.old.next + 1 ≡ run.old.end }
    ensures filled { Filled (H.view h.old) (H.view h.new) run.old.next run.old.end }
    ensures spent { run.new.next ≡ run.new.end }
    ensures root { holds (recs (H.view h.new).seen) result.0 (is_root (recs (H.view h.new).seen) Kind.Stream result.0) ≡ true }
    ensures items { means (recs (H.view h.new).seen) result.0 ≡ items_in (cells (recs (H.view h.old).seen) front.0) }
    ensures credits { (H.view h.old).hand.credits ≤ (H.view h.new).hand.credits }
{
    h.put(run, Rec::StreamTop { cells: front, size })
}
