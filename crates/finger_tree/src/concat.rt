//! Suspended concatenations: two trees that may be pending, and a digit of elements between them.
ghost use Rattle.std.specs.Prelude.{◌≡◌, true, Some};
ghost use Rattle.heap_store.specs.World.{recs};
ghost use Rattle.heap_store.specs.View.{Quiet};
ghost use Rattle.heap_store.specs.Jobs.{cursor_fits, Prepared, IsBuildable, IsBuilt};
ghost use Rattle.finger_tree.specs.Work.{is_join, is_finger_work, joining, LevelTold};

use finger_level::{Family, Weight, concat_level, places, put_level};
use heap_store::{Built, Cursor, Heap, Prep, Run, value_place};
use lazy_rec::{Rec, Ref};

/// The fields of a suspended concatenation, the trees and the list from left to right.
#[derive(Clone, Copy)]
pub struct Join {
    pub left: Ref,
    pub list: Ref,
    pub right: Ref,
    pub origin: Ref,
    pub off: u8,
    pub weight: Weight,
}

fn join_of(rec: &Rec) -> Join
    requires { is_join rec.now ≡ true }
    ensures { rec.now ≡ joining result }
{
    match *rec {
        Rec::Concat {
            left,
            right,
            list,
            origin,
            off,
            size,
            key,
        } => Join {
            left,
            list,
            right,
            origin,
            off,
            weight: Weight { size, key },
        },
        _ => unreachable!(),
    }
}

/// What a suspended concatenation needs: its left tree, then its right one. Once both are values, its places are those of the
/// level that it makes.
pub fn prepare<H: Heap>(rec: &Rec, h: &mut H, s: Ref, cursor: &mut Cursor) -> Prep
    requires rec { recs (H.view h.old).seen s.0 ≡ Some rec.now }
    requires mine { is_join rec.now ≡ true }
    requires cursor { cursor_fits (H.view h.old).seen s.0 cursor.old ≡ true }
    ensures quiet { Quiet (H.view h.old) (H.view h.new) }
    ensures cursor { cursor_fits (H.view h.new).seen s.0 cursor.new ≡ true }
    ensures answer { Prepared is_finger_work LevelTold (H.view h.new).seen s.0 result }
{
    let join = join_of(rec);
    let Some(p) = value_place(h, join.left) else {
        return Prep::Need(join.left);
    };
    let Some(q) = value_place(h, join.right) else {
        return Prep::Need(join.right);
    };
    let level = concat_level(h, p, join.list, q);
    Prep::Ready {
        nodes: places(level),
    }
}

/// Makes the value of a suspended concatenation: one level of both trees, and the next suspended concatenation, one level down,
/// of their middles and the nodes between; or pushes, where a tree has at most one element.
pub fn build<H: Heap>(rec: &Rec, h: &mut H, s: Ref, cursor: &Cursor, run: &mut Run) -> Built
    requires rec { recs (H.view h.old).seen s.0 ≡ Some rec.now }
    requires mine { is_join rec.now ≡ true }
    requires cursor { cursor_fits (H.view h.old).seen s.0 cursor.now ≡ true }
    requires build { IsBuildable LevelTold (H.view h.old) s run.old }
    ensures { IsBuilt (H.view h.old) (H.view h.new) s.0 run.old run.new result.place.0 result.steps }
{
    let join = join_of(rec);
    let Some(p) = value_place(h, join.left) else {
        unreachable!()
    };
    let Some(q) = value_place(h, join.right) else {
        unreachable!()
    };
    let level = concat_level(h, p, join.list, q);
    let family = Family::Later {
        of: s,
        origin: join.origin,
        off: join.off,
    };
    let place = put_level(h, level, join.weight, &family, join.weight.key.0 > 0, run);
    Built { place, steps: 1 }
}
