//! Tops of banker's queues.
ghost use Rattle.std.specs.Prelude.{◌≡◌, ◌+◌, ◌<◌, ◌≤◌, true, Some, [], ◌++◌, reverse};
ghost use Rattle.lazy_rec.specs.Meaning.{cells, means};
ghost use Rattle.heap_store.specs.World.{recs, holds};
ghost use Rattle.heap_store.specs.Values.{items_in};
ghost use Rattle.heap_store.specs.Lawful.{is_root};
ghost use Rattle.heap_store.specs.Hand.{IsInHand};
ghost use Rattle.heap_store.specs.View.{Quiet};
ghost use Rattle.heap_store.specs.Jobs.{Filled};
ghost use Rattle.bank_queue.specs.Queue.{top_record, top_places, top_gain, IsNearQueue, IsRotatable};

use heap_store::{Heap, Run};
use lazy_rec::{Kind, Rec, Ref};

/// The fields of a queue's top: the front and the rear with their lengths, and of the latest rotation, if there was one,
/// its origin, the length of its front and the number of tails since.
#[derive(Clone, Copy)]
pub struct Top {
    pub front: Ref,
    pub lenf: u32,
    pub rear: Ref,
    pub lenr: u32,
    pub rotated: bool,
    pub origin: Ref,
    pub n: u32,
    pub tails: u32,
}

/// The empty queue, in the one place of a run.
pub fn new_queue<H: Heap>(h: &mut H, run: &mut Run) -> Ref
    requires held { IsInHand (H.view h.old).hand run.old }
    requires size { run.old.next + 1 ≡ run.old.end }
    ensures filled { Filled (H.view h.old) (H.view h.new) run.old.next run.old.end }
    ensures spent { run.new.next ≡ run.new.end }
    ensures root { holds (recs (H.view h.new).seen) result.0 (is_root (recs (H.view h.new).seen) Kind.Bankq result.0) ≡ true }
    ensures empty { means (recs (H.view h.new).seen) result.0 ≡ [] }
    ensures credits { (H.view h.old).hand.credits ≤ (H.view h.new).hand.credits }
{
    h.put(
        run,
        Rec::BankTop {
            front: Ref(0),
            lenf: 0,
            rear: Ref(1),
            lenr: 0,
            rotated: false,
            origin: Ref(0),
            n: 0,
            tails: 0,
        },
    )
}

/// The top at the root of a queue.
pub(crate) fn read_top<H: Heap>(h: &mut H, root: Ref) -> Top
    requires { holds (recs (H.view h.old).seen) root.0 (is_root (recs (H.view h.old).seen) Kind.Bankq root.0) ≡ true }
    ensures quiet { Quiet (H.view h.old) (H.view h.new) }
    ensures top { recs (H.view h.old).seen root.0 ≡ Some (top_record result) }
{
    match h.read(root) {
        Rec::BankTop {
            front,
            lenf,
            rear,
            lenr,
            rotated,
            origin,
            n,
            tails,
        } => Top {
            front,
            lenf,
            rear,
            lenr,
            rotated,
            origin,
            n,
            tails,
        },
        _ => unreachable!(),
    }
}

/// Publishes a top. Where the rear is longer than the front, it is that of a new rotation of both. It spends a credit for
/// each unit of the latest rotation that it shows first (Okasaki's debit law): one more for an item on the rear, and two
/// for a tail. So by the time of a new rotation all units of the old one are discharged.
#[inline(always)]
pub(crate) fn put_top<H: Heap>(h: &mut H, top: Top, run: &mut Run) -> Ref
    requires top { IsNearQueue (H.view h.old).seen top run.old.next }
    requires held { IsInHand (H.view h.old).hand run.old }
    requires size { run.old.next + top_places top.lenf top.lenr ≡ run.old.end }
    requires credits { top_gain (H.view h.old).seen run.old.next top ≤ (H.view h.old).hand.credits }
    ensures filled { Filled (H.view h.old) (H.view h.new) run.old.next run.old.end }
    ensures spent { run.new.next ≡ run.new.end }
    ensures root { holds (recs (H.view h.new).seen) result.0 (is_root (recs (H.view h.new).seen) Kind.Bankq result.0) ≡ true }
    ensures items { means (recs (H.view h.new).seen) result.0 ≡ items_in (cells (recs (H.view h.old).seen) top.front.0 ++ reverse (cells (recs (H.view h.old).seen) top.rear.0)) }
    ensures credits { (H.view h.old).hand.credits ≤ (H.view h.new).hand.credits + top_gain (H.view h.old).seen run.old.next top }
{
    if top.lenr > top.lenf {
        return put_rotated(h, top.front, top.lenf, top.rear, run);
    }
    h.put(
        run,
        Rec::BankTop {
            front: top.front,
            lenf: top.lenf,
            rear: top.rear,
            lenr: top.lenr,
            rotated: top.rotated,
            origin: top.origin,
            n: top.n,
            tails: top.tails,
        },
    )
}

/// Publishes a new rotation of a front of `length` cells, all of whose units are discharged, and a rear of one more; and
/// its top, which shows the rotation's first unit.
fn put_rotated<H: Heap>(h: &mut H, front: Ref, length: u32, rear: Ref, run: &mut Run) -> Ref
    requires lists { IsRotatable (H.view h.old).seen front.0 length rear.0 run.old.next }
    requires held { IsInHand (H.view h.old).hand run.old }
    requires size { run.old.next + 2 ≡ run.old.end }
    requires credits { 1 ≤ (H.view h.old).hand.credits }
    ensures filled { Filled (H.view h.old) (H.view h.new) run.old.next run.old.end }
    ensures spent { run.new.next ≡ run.new.end }
    ensures root { holds (recs (H.view h.new).seen) result.0 (is_root (recs (H.view h.new).seen) Kind.Bankq result.0) ≡ true }
    ensures items { means (recs (H.view h.new).seen) result.0 ≡ items_in (cells (recs (H.view h.old).seen) front.0 ++ reverse (cells (recs (H.view h.old).seen) rear.0)) }
    ensures credits { (H.view h.old).hand.credits ≤ (H.view h.new).hand.credits + 1 }
{
    let origin = run.next();
    let rotation = h.put(
        run,
        Rec::BankRot {
            xs: front,
            rear,
            left: length,
            origin,
            off: 0,
        },
    );
    h.put(
        run,
        Rec::BankTop {
            front: rotation,
            lenf: 2 * length + 1,
            rear: Ref(1),
            lenr: 0,
            rotated: true,
            origin,
            n: length,
            tails: 0,
        },
    )
}
