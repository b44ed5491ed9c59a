//! Rotations, the pending work of banker's queues: the front, and behind it the rear reversed.
ghost use Rattle.std.specs.Prelude.{◌≡◌, ◌+◌, ◌<◌, true, Some};
ghost use Rattle.heap_store.specs.World.{recs};
ghost use Rattle.heap_store.specs.Lawful.{is_any_bank_rotation};
ghost use Rattle.heap_store.specs.View.{Quiet};
ghost use Rattle.heap_store.specs.OneStage.{nothing_told};
ghost use Rattle.heap_store.specs.Jobs.{cursor_fits, Prepared, IsBuildable, IsBuilt};

use heap_store::{Built, Cursor, Heap, Prep, Run, first_cell, list_cell, value_place};
use lazy_rec::{Rec, Ref};

/// What a rotation needs: the first cell of its front, or nothing where no cell of the front is left. It has no cells to
/// pass one by one, so the cursor stays.
pub fn prepare<H: Heap>(rec: &Rec, h: &mut H, s: Ref, cursor: &mut Cursor) -> Prep
    requires rec { recs (H.view h.old).seen s.0 ≡ Some rec.now }
    requires mine { is_any_bank_rotation rec.now ≡ true }
    requires cursor { cursor_fits (H.view h.old).seen s.0 cursor.old ≡ true }
    ensures quiet { Quiet (H.view h.old) (H.view h.new) }
    ensures cursor { cursor_fits (H.view h.new).seen s.0 cursor.new ≡ true }
    ensures answer { Prepared is_any_bank_rotation nothing_told (H.view h.new).seen s.0 result }
{
    match *rec {
        Rec::BankRot { xs, left, off, .. } => {
            if left == 0 {
                return Prep::Ready { nodes: off + 1 };
            }
            match value_place(h, xs) {
                Some(_) => Prep::Ready { nodes: 2 },
                None => Prep::Need(xs),
            }
        }
        _ => unreachable!(),
    }
}

/// Makes the value of a rotation: the first cell of its front and the next rotation, or the rear reversed.
pub fn build<H: Heap>(rec: &Rec, h: &mut H, s: Ref, cursor: &Cursor, run: &mut Run) -> Built
    requires rec { recs (H.view h.old).seen s.0 ≡ Some rec.now }
    requires mine { is_any_bank_rotation rec.now ≡ true }
    requires cursor { cursor_fits (H.view h.old).seen s.0 cursor.now ≡ true }
    requires build { IsBuildable nothing_told (H.view h.old) s run.old }
    ensures { IsBuilt (H.view h.old) (H.view h.new) s.0 run.old run.new result.place.0 result.steps }
{
    match *rec {
        Rec::BankRot {
            xs,
            rear,
            left,
            origin,
            off,
        } => {
            let rotation = Rotation {
                xs,
                rear,
                left,
                origin,
                off,
            };
            if left == 0 {
                build_reverse(h, s, rotation, run)
            } else {
                build_next(h, s, rotation, run)
            }
        }
        _ => unreachable!(),
    }
}

/// The fields of a rotation's record.
#[derive(Clone, Copy)]
struct Rotation {
    xs: Ref,
    rear: Ref,
    left: u32,
    origin: Ref,
    off: u32,
}

fn build_next<H: Heap>(h: &mut H, s: Ref, of: Rotation, run: &mut Run) -> Built
    requires rec { recs (H.view h.old).seen s.0 ≡ Some (Rec.BankRot of.xs of.rear of.left of.origin of.off) }
    requires left { 0 < of.left }
    requires build { IsBuildable nothing_told (H.view h.old) s run.old }
    ensures { IsBuilt (H.view h.old) (H.view h.new) s.0 run.old run.new result.place.0 result.steps }
{
    let cell = first_cell(h, of.xs);
    let next = h.put(
        run,
        Rec::BankRot {
            xs: cell.rest,
            rear: of.rear,
            left: of.left - 1,
            origin: of.origin,
            off: of.off + 1,
        },
    );
    let place = h.put(
        run,
        Rec::Cons {
            child: false,
            value: cell.value,
            rest: next,
        },
    );
    Built { place, steps: 1 }
}

fn build_reverse<H: Heap>(h: &mut H, s: Ref, of: Rotation, run: &mut Run) -> Built
    requires rec { recs (H.view h.old).seen s.0 ≡ Some (Rec.BankRot of.xs of.rear of.left of.origin of.off) }
    requires none { of.left ≡ 0 }
    requires build { IsBuildable nothing_told (H.view h.old) s run.old }
    ensures { IsBuilt (H.view h.old) (H.view h.new) s.0 run.old run.new result.place.0 result.steps }
{
    let count = of.off + 1;
    let mut rest = of.rear;
    let mut place = Ref(0);
    for i in 0..count {
        let cell = list_cell(h, rest);
        place = h.put(
            run,
            Rec::Cons {
                child: false,
                value: cell.value,
                rest: place,
            },
        );
        rest = cell.rest;
    }
    Built {
        place,
        steps: count,
    }
}
