//! The pending work of finger trees, by its record.
ghost use Rattle.std.specs.Prelude.{◌≡◌, true, Some};
ghost use Rattle.heap_store.specs.World.{recs};
ghost use Rattle.heap_store.specs.View.{Quiet};
ghost use Rattle.heap_store.specs.Jobs.{cursor_fits, Prepared, IsBuildable, IsBuilt};
ghost use Rattle.finger_tree.specs.Work.{is_finger_work, LevelTold};

use crate::{concat, push, tail};
use heap_store::{Built, Cursor, Heap, Prep, Run};
use lazy_rec::{Rec, Ref};

/// What a push, a tail or a concatenation needs: its trees. Once they are values, its places are those of the level that it makes.
pub fn prepare<H: Heap>(rec: &Rec, h: &mut H, s: Ref, cursor: &mut Cursor) -> Prep
    requires rec { recs (H.view h.old).seen s.0 ≡ Some rec.now }
    requires mine { is_finger_work rec.now ≡ true }
    requires cursor { cursor_fits (H.view h.old).seen s.0 cursor.old ≡ true }
    ensures quiet { Quiet (H.view h.old) (H.view h.new) }
    ensures cursor { cursor_fits (H.view h.new).seen s.0 cursor.new ≡ true }
    ensures answer { Prepared is_finger_work LevelTold (H.view h.new).seen s.0 result }
{
    match *rec {
        Rec::PushL { .. } | Rec::PushR { .. } => push::prepare(rec, h, s, cursor),
        Rec::DeepL { .. } | Rec::DeepR { .. } => tail::prepare(rec, h, s, cursor),
        Rec::Concat { .. } => concat::prepare(rec, h, s, cursor),
        _ => unreachable!(),
    }
}

/// Makes the level of a push, a tail or a concatenation whose needs are done, in one step.
pub fn build<H: Heap>(rec: &Rec, h: &mut H, s: Ref, cursor: &Cursor, run: &mut Run) -> Built
    requires rec { recs (H.view h.old).seen s.0 ≡ Some rec.now }
    requires mine { is_finger_work rec.now ≡ true }
    requires cursor { cursor_fits (H.view h.old).seen s.0 cursor.now ≡ true }
    requires build { IsBuildable LevelTold (H.view h.old) s run.old }
    ensures { IsBuilt (H.view h.old) (H.view h.new) s.0 run.old run.new result.place.0 result.steps }
{
    match *rec {
        Rec::PushL { .. } | Rec::PushR { .. } => push::build(rec, h, s, cursor, run),
        Rec::DeepL { .. } | Rec::DeepR { .. } => tail::build(rec, h, s, cursor, run),
        Rec::Concat { .. } => concat::build(rec, h, s, cursor, run),
        _ => unreachable!(),
    }
}
