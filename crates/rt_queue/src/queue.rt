//! Tops of real-time queues.
ghost use Rattle.std.specs.Prelude.{◌≡◌, ◌+◌, ◌<◌, ◌≤◌, true, Some, []};
ghost use Rattle.lazy_rec.specs.Meaning.{means};
ghost use Rattle.heap_store.specs.World.{recs, holds};
ghost use Rattle.heap_store.specs.Lawful.{is_root};
ghost use Rattle.heap_store.specs.Hand.{IsInHand};
ghost use Rattle.heap_store.specs.View.{Quiet, purse};
ghost use Rattle.heap_store.specs.Jobs.{Filled};
ghost use Rattle.rt_queue.specs.Queue.{is_top, top_record, top_places, IsRotatable, IsNearQueue, IsRotated, IsTopMade, IsTopPut};

use heap_store::{Heap, Run, first_cell};
use lazy_rec::{Kind, Rec, Ref};

/// The fields of a queue's top: the front and the rear with their lengths, and the schedule, which stands as many cells behind
/// the front as the rear is long. What is before the schedule is known.
#[derive(Clone, Copy)]
pub struct Top {
    pub front: Ref,
    pub lenf: u32,
    pub rear: Ref,
    pub lenr: u32,
    pub sched: Ref,
}

/// The empty queue, in the one place of a run.
pub fn new_queue<H: Heap>(h: &mut H, run: &mut Run) -> Ref
    requires held { IsInHand (H.view h.old).hand run.old }
    requires size { run.old.next + 1 ≡ run.old.end }
    ensures filled { Filled (H.view h.old) (H.view h.new) run.old.next run.old.end }
    ensures spent { run.new.next ≡ run.new.end }
    ensures root { holds (recs (H.view h.new).seen) result.0 (is_root (recs (H.view h.new).seen) Kind.Rtq result.0) ≡ true }
    ensures empty { means (recs (H.view h.new).seen) result.0 ≡ [] }
    ensures credits { (H.view h.old).hand.credits ≤ (H.view h.new).hand.credits }
{
    h.put(
        run,
        Rec::RtTop {
            front: Ref(0),
            lenf: 0,
            rear: Ref(1),
            lenr: 0,
            sched: Ref(0),
        },
    )
}

/// The top at the root of a queue.
pub fn read_top<H: Heap>(h: &mut H, root: Ref) -> Top
    requires { holds (recs (H.view h.old).seen) root.0 is_top ≡ true }
    ensures quiet { Quiet (H.view h.old) (H.view h.new) }
    ensures top { recs (H.view h.old).seen root.0 ≡ Some (top_record result) }
{
    match h.read(root) {
        Rec::RtTop {
            front,
            lenf,
            rear,
            lenr,
            sched,
        } => Top {
            front,
            lenf,
            rear,
            lenr,
            sched,
        },
        _ => unreachable!(),
    }
}

/// Publishes the top of a queue that has one cell more on its rear, or one less in front, than when its schedule was made
/// (Okasaki's `exec`): with the schedule one cell on, or where none of it is left, with a new rotation as front and schedule.
/// It forces nothing. It spends a credit at most, for the schedule's unit: so each schedule is paid for by its top. The
/// entries may be items or lists.
#[inline(always)]
pub fn put_top<H: Heap>(h: &mut H, top: Top, run: &mut Run) -> Ref
    requires top { IsNearQueue (H.view h.old).seen top run.old.next }
    requires held { IsInHand (H.view h.old).hand run.old }
    requires room { run.old.next + top_places top.lenf top.lenr ≤ run.old.end }
    requires credits { 1 ≤ purse (H.view h.old) }
    ensures put { IsTopPut (H.view h.old) (H.view h.new) run.old run.new (top_places top.lenf top.lenr) }
    ensures made { IsTopMade (H.view h.new).seen top result.0 }
    ensures low { result.0 < run.new.next }
{
    if top.lenr > top.lenf {
        return put_rotated(h, top.front, top.lenf, top.rear, run);
    }
    let cell = first_cell(h, top.sched);
    h.put(
        run,
        Rec::RtTop {
            front: top.front,
            lenf: top.lenf,
            rear: top.rear,
            lenr: top.lenr,
            sched: cell.rest,
        },
    )
}

/// Publishes a new rotation of a front of `length` cells, all known, and a rear of one more; and its top, which shows the
/// rotation's first unit.
fn put_rotated<H: Heap>(h: &mut H, front: Ref, length: u32, rear: Ref, run: &mut Run) -> Ref
    requires lists { IsRotatable (H.view h.old).seen front.0 length rear.0 run.old.next }
    requires held { IsInHand (H.view h.old).hand run.old }
    requires room { run.old.next + 2 ≤ run.old.end }
    requires credits { 1 ≤ purse (H.view h.old) }
    ensures put { IsTopPut (H.view h.old) (H.view h.new) run.old run.new 2 }
    ensures made { IsRotated (H.view h.new).seen front length rear result.0 }
    ensures low { result.0 < run.new.next }
{
    let origin = run.next();
    let rotation = h.put(
        run,
        Rec::RtRot {
            xs: front,
            rear,
            acc: Ref(0),
            left: length,
            origin,
            off: 0,
        },
    );
    h.put(
        run,
        Rec::RtTop {
            front: rotation,
            lenf: 2 * length + 1,
            rear: Ref(1),
            lenr: 0,
            sched: rotation,
        },
    )
}
