//! Rotations, the pending work of real-time queues: the front, behind it the rear reversed, and behind that the cells that
//! were turned round before. Each step takes one cell of the front and turns round one cell of the rear.
ghost use Rattle.std.specs.Prelude.{◌≡◌, ◌<◌, true, Some};
ghost use Rattle.heap_store.specs.World.{recs};
ghost use Rattle.heap_store.specs.Lawful.{is_any_rt_rotation};
ghost use Rattle.heap_store.specs.View.{Quiet};
ghost use Rattle.heap_store.specs.Jobs.{cursor_fits, Prepared, IsBuildable, IsBuilt};
ghost use Rattle.heap_store.specs.OneStage.{nothing_told};
ghost use Rattle.rt_queue.specs.Queue.{is_ready};

use heap_store::{Built, Cursor, Heap, Prep, Run, first_cell, list_cell};
use lazy_rec::{Rec, Ref};

/// What a rotation needs: nothing. The front of a queue that rotates is known to its end, so a completion never leads to
/// another. It takes three places, and the last one of its family one. The cursor stays.
pub fn prepare<H: Heap>(rec: &Rec, h: &mut H, s: Ref, cursor: &mut Cursor) -> Prep
    requires rec { recs (H.view h.old).seen s.0 ≡ Some rec.now }
    requires mine { is_any_rt_rotation rec.now ≡ true }
    requires cursor { cursor_fits (H.view h.old).seen s.0 cursor.old ≡ true }
    ensures quiet { Quiet (H.view h.old) (H.view h.new) }
    ensures cursor { cursor_fits (H.view h.new).seen s.0 cursor.new ≡ true }
    ensures answer { Prepared is_any_rt_rotation nothing_told (H.view h.new).seen s.0 result }
    ensures ready { is_ready result ≡ true }
{
    match *rec {
        Rec::RtRot { left, .. } => Prep::Ready {
            nodes: if left == 0 { 1 } else { 3 },
        },
        _ => unreachable!(),
    }
}

/// Makes the value of a rotation in one step: the first cell of its front and the next rotation, or the last cell of the
/// rear in front of those that were turned round.
pub fn build<H: Heap>(rec: &Rec, h: &mut H, s: Ref, cursor: &Cursor, run: &mut Run) -> Built
    requires rec { recs (H.view h.old).seen s.0 ≡ Some rec.now }
    requires mine { is_any_rt_rotation rec.now ≡ true }
    requires cursor { cursor_fits (H.view h.old).seen s.0 cursor.now ≡ true }
    requires build { IsBuildable nothing_told (H.view h.old) s run.old }
    ensures built { IsBuilt (H.view h.old) (H.view h.new) s.0 run.old run.new result.place.0 result.steps }
    ensures step { result.steps ≡ 1 }
{
    match *rec {
        Rec::RtRot {
            xs,
            rear,
            acc,
            left,
            origin,
            off,
        } => {
            let rotation = Rotation {
                xs,
                rear,
                acc,
                left,
                origin,
                off,
            };
            if left == 0 {
                build_last(h, s, rotation, run)
            } else {
                build_next(h, s, rotation, run)
            }
        }
        _ => unreachable!(),
    }
}

/// The fields of a rotation's record.
#[derive(Clone, Copy)]
struct Rotation {
    xs: Ref,
    rear: Ref,
    acc: Ref,
    left: u32,
    origin: Ref,
    off: u32,
}

fn build_next<H: Heap>(h: &mut H, s: Ref, of: Rotation, run: &mut Run) -> Built
    requires rec { recs (H.view h.old).seen s.0 ≡ Some (Rec.RtRot of.xs of.rear of.acc of.left of.origin of.off) }
    requires left { 0 < of.left }
    requires build { IsBuildable nothing_told (H.view h.old) s run.old }
    ensures built { IsBuilt (H.view h.old) (H.view h.new) s.0 run.old run.new result.place.0 result.steps }
    ensures step { result.steps ≡ 1 }
{
    let first = first_cell(h, of.xs);
    let last = list_cell(h, of.rear);
    let turned = h.put(
        run,
        Rec::Cons {
            child: last.child,
            value: last.value,
            rest: of.acc,
        },
    );
    let next = h.put(
        run,
        Rec::RtRot {
            xs: first.rest,
            rear: last.rest,
            acc: turned,
            left: of.left - 1,
            origin: of.origin,
            off: of.off + 1,
        },
    );
    let place = h.put(
        run,
        Rec::Cons {
            child: first.child,
            value: first.value,
            rest: next,
        },
    );
    Built { place, steps: 1 }
}

fn build_last<H: Heap>(h: &mut H, s: Ref, of: Rotation, run: &mut Run) -> Built
    requires rec { recs (H.view h.old).seen s.0 ≡ Some (Rec.RtRot of.xs of.rear of.acc of.left of.origin of.off) }
    requires none { of.left ≡ 0 }
    requires build { IsBuildable nothing_told (H.view h.old) s run.old }
    ensures built { IsBuilt (H.view h.old) (H.view h.new) s.0 run.old run.new result.place.0 result.steps }
    ensures step { result.steps ≡ 1 }
{
    let last = list_cell(h, of.rear);
    let place = h.put(
        run,
        Rec::Cons {
            child: last.child,
            value: last.value,
            rest: of.acc,
        },
    );
    Built { place, steps: 1 }
}
