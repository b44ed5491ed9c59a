//! Suspended tails: a middle that may be pending and one digit, of a tree of which nothing is left of the other digit.
ghost use Rattle.std.specs.Prelude.{◌≡◌, true, Some};
ghost use Rattle.heap_store.specs.World.{recs};
ghost use Rattle.heap_store.specs.View.{Quiet};
ghost use Rattle.heap_store.specs.Jobs.{cursor_fits, Prepared, IsBuildable, IsBuilt};
ghost use Rattle.finger_tree.specs.Work.{is_tail, is_finger_work, hanging, LevelTold};

use finger_level::{Family, Side, Weight, drawn_places, put_drawn};
use heap_store::{Built, Cursor, Heap, Prep, Run, value_place};
use lazy_rec::{Rec, Ref};

/// The fields of a suspended tail: on its side nothing is left of the digit.
#[derive(Clone, Copy)]
pub struct Tail {
    pub side: Side,
    pub middle: Ref,
    pub digit: Ref,
    pub origin: Ref,
    pub off: u8,
    pub weight: Weight,
}

fn tail_of(rec: &Rec) -> Tail
    requires { is_tail rec.now ≡ true }
    ensures { rec.now ≡ hanging result }
{
    match *rec {
        Rec::DeepL {
            middle,
            digit,
            size,
            origin,
            off,
            key,
        } => Tail {
            side: Side::Left,
            middle,
            digit,
            origin,
            off,
            weight: Weight { size, key },
        },
        Rec::DeepR {
            middle,
            digit,
            size,
            origin,
            off,
            key,
        } => Tail {
            side: Side::Right,
            middle,
            digit,
            origin,
            off,
            weight: Weight { size, key },
        },
        _ => unreachable!(),
    }
}

/// What a suspended tail needs: its middle. Once that is a value, its places are those of the level that it makes.
pub fn prepare<H: Heap>(rec: &Rec, h: &mut H, s: Ref, cursor: &mut Cursor) -> Prep
    requires rec { recs (H.view h.old).seen s.0 ≡ Some rec.now }
    requires mine { is_tail rec.now ≡ true }
    requires cursor { cursor_fits (H.view h.old).seen s.0 cursor.old ≡ true }
    ensures quiet { Quiet (H.view h.old) (H.view h.new) }
    ensures cursor { cursor_fits (H.view h.new).seen s.0 cursor.new ≡ true }
    ensures answer { Prepared is_finger_work LevelTold (H.view h.new).seen s.0 result }
{
    let tail = tail_of(rec);
    match value_place(h, tail.middle) {
        Some(q) => Prep::Ready {
            nodes: drawn_places(h, tail.side, q, tail.digit),
        },
        None => Prep::Need(tail.middle),
    }
}

/// Makes the value of a suspended tail: the middle's node at that end becomes the digit, and what is left of the middle is a tree
/// with a shorter digit, or the next suspended tail, one level down.
pub fn build<H: Heap>(rec: &Rec, h: &mut H, s: Ref, cursor: &Cursor, run: &mut Run) -> Built
    requires rec { recs (H.view h.old).seen s.0 ≡ Some rec.now }
    requires mine { is_tail rec.now ≡ true }
    requires cursor { cursor_fits (H.view h.old).seen s.0 cursor.now ≡ true }
    requires build { IsBuildable LevelTold (H.view h.old) s run.old }
    ensures { IsBuilt (H.view h.old) (H.view h.new) s.0 run.old run.new result.place.0 result.steps }
{
    let tail = tail_of(rec);
    match value_place(h, tail.middle) {
        Some(q) => {
            let family = Family::Later {
                of: s,
                origin: tail.origin,
                off: tail.off,
            };
            let keyed = tail.weight.key.0 > 0;
            let place = put_drawn(
                h,
                tail.side,
                q,
                tail.digit,
                tail.weight,
                &family,
                keyed,
                run,
            );
            Built { place, steps: 1 }
        }
        None => unreachable!(),
    }
}
