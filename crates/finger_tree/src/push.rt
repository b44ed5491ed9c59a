//! Suspended pushes: one or two elements pushed onto a tree that may be pending.
ghost use Rattle.std.specs.Prelude.{◌≡◌, true, Some};
ghost use Rattle.lazy_rec.specs.Packed.{in_range};
ghost use Rattle.heap_store.specs.World.{recs};
ghost use Rattle.heap_store.specs.View.{Quiet};
ghost use Rattle.heap_store.specs.Jobs.{cursor_fits, Prepared, IsBuildable, IsBuilt};
ghost use Rattle.finger_tree.specs.Work.{is_push, is_finger_work, pushed_at, suspended, LevelTold};

use finger_level::{Family, Pushed, Side, Weight, pushed_count, pushed_places, put_pushes};
use heap_store::{Built, Cursor, Heap, Prep, Run, value_place};
use lazy_rec::{Rec, Ref};

/// The fields of a suspended push.
#[derive(Clone, Copy)]
pub struct Push {
    pub side: Side,
    pub tree: Ref,
    pub es: Pushed,
    pub origin: Ref,
    pub off: u8,
    pub weight: Weight,
}

fn push_of(rec: &Rec) -> Push
    requires mine { is_push rec.now ≡ true }
    requires range { in_range rec.now ≡ true }
    ensures { rec.now ≡ suspended result }
{
    match *rec {
        Rec::PushL {
            tree,
            count,
            e1,
            e2,
            origin,
            off,
            size,
            key,
        } => Push {
            side: Side::Left,
            tree,
            es: pushed(count, e1, e2),
            origin,
            off,
            weight: Weight { size, key },
        },
        Rec::PushR {
            tree,
            count,
            e1,
            e2,
            origin,
            off,
            size,
            key,
        } => Push {
            side: Side::Right,
            tree,
            es: pushed(count, e1, e2),
            origin,
            off,
            weight: Weight { size, key },
        },
        _ => unreachable!(),
    }
}

fn pushed(count: u8, e1: Ref, e2: Ref) -> Pushed
    ensures { result ≡ pushed_at count e1 e2 }
{
    if count == 1 {
        Pushed::One(e1)
    } else {
        Pushed::Two(e1, e2)
    }
}

/// What a suspended push needs: its tree. Once that is a value, its places are those of the level that it makes.
pub fn prepare<H: Heap>(rec: &Rec, h: &mut H, s: Ref, cursor: &mut Cursor) -> Prep
    requires rec { recs (H.view h.old).seen s.0 ≡ Some rec.now }
    requires mine { is_push rec.now ≡ true }
    requires cursor { cursor_fits (H.view h.old).seen s.0 cursor.old ≡ true }
    ensures quiet { Quiet (H.view h.old) (H.view h.new) }
    ensures cursor { cursor_fits (H.view h.new).seen s.0 cursor.new ≡ true }
    ensures answer { Prepared is_finger_work LevelTold (H.view h.new).seen s.0 result }
{
    let push = push_of(rec);
    match value_place(h, push.tree) {
        Some(q) => Prep::Ready {
            nodes: pushed_places(h, push.side, pushed_count(push.es), q),
        },
        None => Prep::Need(push.tree),
    }
}

/// Makes the value of a suspended push: one level of the tree, and the suspended push of what overflows.
pub fn build<H: Heap>(rec: &Rec, h: &mut H, s: Ref, cursor: &Cursor, run: &mut Run) -> Built
    requires rec { recs (H.view h.old).seen s.0 ≡ Some rec.now }
    requires mine { is_push rec.now ≡ true }
    requires cursor { cursor_fits (H.view h.old).seen s.0 cursor.now ≡ true }
    requires build { IsBuildable LevelTold (H.view h.old) s run.old }
    ensures { IsBuilt (H.view h.old) (H.view h.new) s.0 run.old run.new result.place.0 result.steps }
{
    let push = push_of(rec);
    match value_place(h, push.tree) {
        Some(q) => {
            let family = Family::Later {
                of: s,
                origin: push.origin,
                off: push.off,
            };
            let place = put_pushes(
                h,
                push.side,
                push.es,
                q,
                push.weight,
                &family,
                push.weight.key.0 > 0,
                run,
            );
            Built { place, steps: 1 }
        }
        None => unreachable!(),
    }
}
